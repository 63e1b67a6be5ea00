// What `--help` tells, in lines of at most 80 columns. `-h` tells the first line of each and the options alone.

/// What `-h` says behind the options of a command.
pub const MORE: &str = "--help tells also the lines that are read, the statuses, and an example.";

/// The same of the program.
pub const MORE_OF_PROGRAM: &str =
    "airbook COMMAND --help tells what it reads and writes, with an example.";

pub const ABOUT: &str = "\
Answers LoRaWAN uplinks in EU868: which gateway sends the downlink, in which
window, and whether its duty cycle lets it.";

pub const AFTER: &str = "\
Statuses:
  0  no line of the output begins with no or bad
  1  one does
  2  the arguments were refused, with a text on standard error; or the run
     stopped, with a last line airbook: NAME there (docs/FORMATS.md has them)
check has its own: see airbook check --help.

Examples:
  airbook toa 5 12
  airbook book < examples/two-bookings.txt
  airbook plan < examples/plan.txt
  airbook picture < examples/busy-hour.txt > hour.svg
  airbook recover --gateway 2 < examples/journal.txt
  airbook check < examples/misspelt.toml
  airbook run < examples/two-gateways.txt
  airbook listen --port 1700 --turns 1 < examples/settings.toml
  airbook serve --state /var/lib/airbook < examples/serve.toml";

pub const TOA: &str = "Tells the time on air of a frame, in microseconds";

pub const AFTER_TOA: &str = "\
It answers no NoRate for a DR above 6, and no TooLong for a LEN above the
greatest of the rate: 64 bytes at DR0 to DR2, 128 at DR3, 255 from DR4 on.
Statuses: see airbook --help.

Example:
  $ airbook toa 5 12
  41216";

pub const BOOK: &str = "Keeps the airtime book of one gateway";

pub const LONG_BOOK: &str = "\
Keeps the airtime book of one gateway. Lines of standard input:
  book NUMBER START FREQ DR LEN
  cancel NUMBER START
  tick NOW
  earliest NUMBER NOT_BEFORE LAST FREQ DR LEN";

pub const AFTER_BOOK: &str = "\
NUMBER is the caller's own for a transmission, below 2^64; two may have the
same. START, NOW, NOT_BEFORE and LAST are microseconds of the gateway's clock.
FREQ is the centre of the channel in Hz, DR the data rate 0 to 6, and LEN the
length of the PHYPayload in bytes, 0 to 255. Each line is answered before the
next one is waited for. Statuses: see airbook --help.

Examples:
  $ echo book 1 10000000 868100000 5 12 | airbook book
  ok 1 10000000 10041216
  booked 41216
  cancelled 0
  retired 0
  kept 1 41216
  floor 0
  busiest M 10000000 41216
  $ echo book 1 10000000 868100000 5 12 | airbook book --save
  ok 1 10000000 10041216
  airbook 2
  gateway 1 4096 0 0
  r 1 10000000 868100000 5 12
  end 1
  $ echo book 1 0 868700000 5 12 | airbook book --notes > /dev/null
  note: line 1: booking 1 lies in no sub-band: 868700000 Hz at DR5
  $ airbook book --resume < examples/saved-book.txt
  no 4 DutyFull K 0 2973696
  ok 5 3600000000 3600991232
  booked 3964928
  cancelled 0
  retired 0
  kept 4 3964928
  floor 0
  busiest K 0 2973696";

pub const PLAN: &str = "Keeps such a book, and tells what it would answer to more bookings";

pub const LONG_PLAN: &str = "\
Keeps the airtime book of one gateway, as book does, and tells what it would
answer to the lines book and earliest that follow a line plan. Nothing of these
is booked; each booking that would be accepted stays for the next.";

pub const AFTER_PLAN: &str = "\
The words are those of book: see airbook book --help. A line that begins with
if doesn't make the status 1. Statuses: see airbook --help.

Example:
  $ airbook plan < examples/plan.txt
  ok 1 10000000 10041216
  if no 8 Taken 10000000
  if ok 9 10041216 10082432
  if no 10 Taken 10000000
  booked 41216
  cancelled 0
  retired 0
  kept 1 41216
  floor 0
  busiest M 10000000 41216";

pub const PICTURE: &str = "Draws an hour of a saved book: each sub-band's transmissions";

pub const LONG_PICTURE: &str = "\
Draws an hour of a saved book, as an SVG for a browser or a printer. Standard
input: what book --save writes. Each sub-band has a row: how much airtime begins
in the hour, of how much, and its busiest hour; a bar, for which the whole row
is the limit; and a mark for each transmission that begins in the hour, with as
many cuts as its data rate has in its number. A dashed line is the floor";

pub const FROM: &str = "\
The hour opens at T, in microseconds of the gateway's clock; without
it the hour ends with the last transmission, or opens at 0";

pub const AFTER_PICTURE: &str = "\
What stands behind the saved book is not looked at. Where the book is at fault,
nothing is written. Statuses: see airbook --help.

Example:
  $ airbook picture < examples/busy-hour.txt > hour.svg";

pub const RECOVER: &str = "Writes what a server's journal says: a gateway's book, or all as SQL";

pub const LONG_RECOVER: &str = "\
Writes what the journal of a server says. Standard input: that journal. With
--gateway the book of a gateway is written as book --resume reads it, and with
--sql all gateways and devices, with what waits and what was sent, as sqlite3
reads them";

pub const AFTER_RECOVER: &str = "\
A batch that was cut off when the server was killed is dropped. Where the
journal is at fault, its line is told on standard error, and nothing is
written. Statuses: see airbook --help.

Examples:
  $ airbook recover --gateway 2 < examples/journal.txt
  airbook 2
  gateway 2 4096 601001 45000
  r 0 1001100 868100000 5 12
  end 1
  $ airbook recover --sql < examples/journal.txt | sqlite3 server.db";

pub const CHECK: &str = "Tells what is wrong or doubtful in the settings of a server";

pub const LONG_CHECK: &str = "\
Tells what is wrong or doubtful in the settings of a server. Standard input: the
settings in TOML, or an input of run, which is read up to its line ---. Each
finding is a line, by its place:
  error NAME LINE:COLUMN WORDS   run and listen refuse the settings
  warning LINE:COLUMN WORDS      they take them, maybe not as they were meant
Behind them stand how many gateways and devices there are, the greatest payload
in bytes at each data rate, and the keys left out, each with its default.";

pub const AFTER_CHECK: &str = "\
The first fault that run and listen meet is one of the errors, by its NAME.
docs/FORMATS.md has all findings, and what to do.

Statuses:
  0  nothing was found
  1  there are warnings alone
  2  run and listen refuse the settings; or the check stopped, with a last line
     airbook: NAME on standard error

Example:
  $ airbook check < examples/misspelt.toml
  warning 10:1 device 1 (26011bda) dealy: unknown key, did you mean delay?
  error Range 11:1 device 1 (26011bda) offset: 6, allowed: a whole number 0 to 5
  found errors 1 warnings 1
  gateways 1 devices 1
  payload DR0 51 DR1 51 DR2 51 DR3 115 DR4 242 DR5 242 DR6 242
  default gateway cap 4096 of 1
  default device delay 1 of 1
  default device rx2_freq 869525000 of 1
  default device rx2_dr 0 of 1
  default device up none of 1
  default device down 0 of 1";

pub const RUN: &str = "Answers the uplinks that gateways heard, from settings and lines";

pub const LONG_RUN: &str = "\
Answers the uplinks that gateways heard. Standard input: the settings in TOML, a
line ---, and then lines
  queue ADDR PORT HEX
  hear GATEWAY AT FREQ DR SNR RSSI ARRIVED HEX
  pass NOW
  tick GATEWAY NOW
  cancel N";

pub const AFTER_RUN: &str = "\
GATEWAY    the id of a gateway of the settings
N          the number of an uplink, which opened N tells
AT         microseconds of the gateway's clock, and so is NOW of tick
ARRIVED    microseconds of the server's clock, and so is NOW of pass
FREQ, DR   the centre of the channel in Hz, and the data rate, 0 to 6
SNR, RSSI  tenths of a dB, and dBm
ADDR       a DevAddr, 8 hexadecimal digits
PORT       the FPort, 1 to 223
HEX        bytes in hexadecimal, or - for none: an FRMPayload after queue, a
           PHYPayload after hear

After hear @KIND:ADDR:COUNTER stands for an uplink of that device and counter
which is made here. KIND is c for confirmed, u for unconfirmed, a for one that
asks for an answer by ADRACKReq. Statuses: see airbook --help.

Example:
  $ airbook run < examples/two-gateways.txt
  opened 1
  joined 1 2
  send 1 2 RX1 10000000 868100000 5 12
  frame 1 60da1b0126200000240347ca
  gateway 1 booked 0 cancelled 0 retired 0 kept 0
  gateway 2 booked 41216 cancelled 0 retired 0 kept 1
  busiest 2 M 10000000 41216
  answered 1 unanswered 0 silent 0
  $ airbook run --workers 2 < examples/two-gateways.txt";

pub const WORKERS_OF_RUN: &str = "\
At most how many workers answer the uplinks that one pass closes, 0 to
16; with 0 one thread does all";

pub const LISTEN: &str = "Answers uplinks as they come, by datagrams on 127.0.0.1";

pub const LONG_LISTEN: &str = "\
Answers the uplinks that gateways heard, as they come: each datagram on a UDP
port of 127.0.0.1 is one line as run reads them, but for @KIND:ADDR:COUNTER, and
is answered at once. Standard input: the settings in TOML";

pub const AFTER_LISTEN: &str = "\
The words are those of run: see airbook run --help. Statuses: see airbook
--help.

Example:
  $ airbook listen --port 1700 --turns 1 < examples/settings.toml &
  $ bash -c 'echo tick 1 5 > /dev/udp/127.0.0.1/1700'
  floor 1 5
  gateway 1 booked 0 cancelled 0 retired 0 kept 0
  gateway 2 booked 0 cancelled 0 retired 0 kept 0
  answered 0 unanswered 0 silent 0";

pub const TURNS: &str = "\
After how many datagrams the report is written and the program ends, 1
to 1000000; a receive that fails counts too";

pub const SERVE: &str = "Answers uplinks of packet forwarders, by Semtech's UDP protocol";

pub const LONG_SERVE: &str = "\
Hears uplinks from the packet forwarders of gateways, by version 2 of Semtech's
UDP protocol, and tells how each of them is answered. With --state it sends the
downlinks, and what it sends is in its journal before. With --shadow it sends
none. Standard input: the settings in TOML. It ends by a fault or a kill alone";

pub const STATE: &str = "\
Keeps its journal in this folder, which has to be there, and sends
downlinks. Started again it goes on with what the journal says";

pub const NEW: &str = "\
Begins a journal where there is none. For an hour before, nothing may
have been sent by these gateways";

pub const AFTER_SERVE: &str = "\
Each gateway of the settings needs an eui, and a gap of 45000 or more:
examples/serve.toml has all its keys. Lines of standard output:
  > LINE                   a line of run: queue, hear, tick or pass; below it
                           stand the lines that answer it
  session GATEWAY AT       the gateway's clock begins anew, at AT
  acked N GATEWAY          the gateway took the downlink N
  failed N GATEWAY ERROR   it did not, or the downlink was not sent
  dropped NAME COUNT EUI   so many datagrams, packets or copies were passed over
                           since this was last told, for the reason NAME; EUI is
                           the gateway's of the last one, or -

A program on the same machine, at 127.0.0.1, may send a line to the port:
  queue ADDR PORT HEX      a payload waits, to go along with an answer; answered
                           as by run, or no queue Journal
  report                   answered by the report of run, as if its input ended
The answer is a datagram of lines; that to anything else is bad 0 Syntax.

Statuses: see airbook --help.

Examples:
  $ mkdir state
  $ airbook serve --state state --new < examples/serve.toml > log.1
  $ airbook serve --state state < examples/serve.toml > log.2
  $ airbook serve --shadow --bind 127.0.0.1:1700 < examples/serve.toml &
  $ printf '\\2\\0\\0\\1' > /dev/udp/127.0.0.1/1700
  dropped Kind 1 -
  $ exec 3<> /dev/udp/127.0.0.1/1700
  $ printf 'queue 26011bda 1 c0ffee' >&3; timeout 1 head -n 1 <&3
  > queue 26011bda 1 c0ffee
  queued 26011bda 1
  queued 26011bda 1";

/// What is told where the value of `--bind` is no address.
pub const NO_ADDRESS: &str =
    "invalid value for '--bind <ADDR:PORT>': it is an IPv4 address and a port above 0";
