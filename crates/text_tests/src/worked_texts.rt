// The worked inputs of the text calls, and what is written for them.

/// Two bookings that touch.
pub(crate) const BOOKINGS: &[u8] =
    b"book 1 10000000 868100000 5 12\nbook 2 10041216 868100000 5 12\n";

pub(crate) const BOOKED: &[u8] =
    b"ok 1 10000000 10041216\nok 2 10041216 10082432\nbooked 82432\ncancelled 0\nretired 0\nkept 2 82432\nfloor 0\n\
      busiest M 10000000 82432\n";

pub(crate) const BOOKED_AND_SAVED: &[u8] =
    b"ok 1 10000000 10041216\nok 2 10041216 10082432\nairbook 2\ngateway 1 4096 0 0\nr 1 10000000 868100000 5 12\n\
      r 2 10041216 868100000 5 12\nend 2\n";

/// A saved book, and a booking behind it.
pub(crate) const SAVED: &[u8] =
    b"airbook 1\ngateway 1 4096 0\nr 1 10000000 868100000 5 12\nend 1\nbook 2 10041216 868100000 5 12\n";

pub(crate) const RESUMED: &[u8] =
    b"ok 2 10041216 10082432\nbooked 82432\ncancelled 0\nretired 0\nkept 2 82432\nfloor 0\nbusiest M 10000000 82432\n";

pub(crate) const SAVED_AGAIN: &[u8] =
    b"ok 2 10041216 10082432\nairbook 2\ngateway 1 4096 0 0\nr 1 10000000 868100000 5 12\nr 2 10041216 868100000 5 12\nend 2\n";

/// A booking, and three that are planned.
pub(crate) const PLAN: &[u8] =
    b"book 1 10000000 868100000 5 12\nplan\nbook 8 10000000 868100000 5 12\nbook 9 10041216 868100000 5 12\n\
      book 10 10041215 868100000 5 12\n";

pub(crate) const PLANNED: &[u8] =
    b"ok 1 10000000 10041216\nif no 8 Taken 10000000\nif ok 9 10041216 10082432\nif no 10 Taken 10000000\n\
      booked 41216\ncancelled 0\nretired 0\nkept 1 41216\nfloor 0\nbusiest M 10000000 41216\n";

/// A confirmed uplink that two gateways hear.
pub(crate) const COPIES: &[u8] =
    b"[[gateway]]\nid = 1\n[[gateway]]\nid = 2\n[[device]]\naddr = \"26011bda\"\n\
      nwkskey = \"2b7e151628aed2a6abf7158809cf4f3c\"\nappskey = \"000102030405060708090a0b0c0d0e0f\"\n---\n\
      hear 1 5000000 868100000 5 55 -90 1000 @c:26011bda:7\nhear 2 9000000 868100000 5 55 -80 1100 @c:26011bda:7\n\
      pass 201000\npass 201001\n";

pub(crate) const ANSWERED: &[u8] =
    b"opened 1\njoined 1 2\nsend 1 2 RX1 10000000 868100000 5 12\nframe 1 60da1b0126200000240347ca\n\
      gateway 1 booked 0 cancelled 0 retired 0 kept 0\ngateway 2 booked 41216 cancelled 0 retired 0 kept 1\n\
      busiest 2 M 10000000 41216\nanswered 1 unanswered 0 silent 0\n";
