// The uplinks that one `pass` of a run on a station closes: workers answer them, and the calling thread the rest.
ghost use Rattle.std.specs.Prelude.{◌≡◌, ◌≤◌, ◌↔◌, Ok, Err, IfOk, IfErr, OnOk, IsErrAnd};
ghost use Rattle.server_workers.specs.Serving.{IsOutside, IsSortedByNumber};
ghost use Rattle.server_workers.specs.Filing.{filing, nothing, IsByNumber};
ghost use Rattle.server_workers.specs.Lists.{lists_of_served};
ghost use Rattle.run_server.specs.PassTurns.{IsFiled, HasFiled, HasFiledInOrder};
ghost use Rattle.run_server.specs.PassTold.{IsPassTold, IsPassToldFrom, IsPassToldAlone};

use crate::pass_answers::Answer;
use crate::pass_ends::{answers, left_of};
use answer_ticket::Receipt;
use server_core::NoMemory;
use server_workers::{
    Filed, Handled, Ledger, MAX_WORKERS, NoGate, PARTS, ServeCause, ServeFault, Served, Station,
    Till, serve,
};
use std::alloc::Global;
use std::hash::BuildHasher;
use std::sync::Wait;
use std::thread::Threads;

/// How many numbers are worth a thread.
const NUMBERS_EACH: usize = 32;

/// What became of the uplinks that one `pass` closed.
#[derive(Drop)]
pub struct Answered<B: Ledger> {
    /// The till that was given, with all its parts.
    pub till: Till<B>,
    /// How many workers were started, or why none was.
    pub ran: Result<u8, ServeCause>,
    /// What is told of them.
    pub told: Result<Told, NoMemory>,
}

/// What is told of the uplinks that one `pass` closed, and the receipts of what was booked for them, whose frames may have been
/// moved into the answers.
#[derive(Drop)]
pub struct Told {
    /// One for each number, in the order of the numbers that were given.
    pub answers: Vec<Answer>,
    /// By number; a frame that was moved is empty here.
    pub booked: Vec<Receipt<Global>>,
}

/// Answers the uplinks with these numbers by as many of so many workers as there is work for. What they did not end, and all
/// where none could work, the calling thread takes up once more. The till comes with all parts of the ledger, and comes back so.
/// `told` is Err(NoMemory) where a growth was refused: what was answered by then is settled and booked, and its lines and
/// receipts are lost.
pub fn answer_with_workers<
    B: Ledger + Send + Sync,
    S: BuildHasher + Send + Sync,
    R: Threads + Wait + Sync,
>(
    rt: &R,
    alloc: Global,
    station: &Station<B, S>,
    numbers: &[u64],
    till: Till<B>,
    workers: u8,
) -> Answered<B>
where
    S::Hasher: Send + Sync,
    requires { till.parts ≡ PARTS }
    ensures parts { result.till.parts ≡ till.parts }
    ensures ran { IfOk result.ran (λ ran. (1 ≤ ran) × (ran ≤ workers)) }
    ensures outside { IsErrAnd result.ran (λ cause. cause ≡ ServeCause.Workers) ↔ IsOutside workers }
    ensures told { IfOk result.told
        (λ told. IsPassTold station.now till result.till numbers.now told.answers.items told.booked.items) }
    ensures alone { IfErr result.ran (λ _. IfOk result.told
        (λ told. IsPassToldAlone station.now till result.till numbers.now told.answers.items told.booked.items)) }
{
    let asked = wanted(workers, numbers.len());
    match serve(rt, alloc, station, numbers, till, asked, &NoGate) {
        Ok(served) => told_behind(rt, alloc, station, numbers, served),
        Err(fault) => told_alone(rt, alloc, station, numbers, fault),
    }
}

/// How many of so many workers so many numbers want: one, and one more for each 32 numbers, as a thread costs what some
/// answers cost. A number of workers that no station has stays as it is.
fn wanted(workers: u8, count: usize) -> u8
    ensures fewer { result ≤ workers }
    ensures outside { IsOutside result ↔ IsOutside workers }
{
    let most = count / NUMBERS_EACH + 1;
    if workers > MAX_WORKERS || usize::from(workers) <= most {
        return workers;
    }
    most as u8
}

/// What is told of the uplinks with these numbers behind workers that did this together: what they skipped has not ended.
fn told_behind<B: Ledger, S: BuildHasher, R: Wait>(
    rt: &R,
    alloc: Global,
    station: &Station<B, S>,
    numbers: &[u64],
    served: Served<B>,
) -> Answered<B>
    requires { IsSortedByNumber served }
    ensures parts { result.till.parts ≡ served.till.parts }
    ensures ran { result.ran ≡ Ok served.ran }
    ensures told { IfOk result.told (λ told. IsPassToldFrom station.now served.till result.till (filing (lists_of_served served)) numbers.now
        told.answers.items told.booked.items) }
{
    let Served {
        mut till,
        receipts,
        outcomes,
        skipped,
        refused,
        strays,
        overrun: _,
        ran,
        ..
    } = served;
    let filed = Filed {
        receipts,
        outcomes,
        skipped,
        refused,
        strays,
    };
    let told = told_of(rt, alloc, station, numbers, &mut till, filed);
    Answered {
        till,
        ran: Ok(ran),
        told,
    }
}

/// What is told of the uplinks with these numbers where no worker was started, for this cause.
fn told_alone<B: Ledger, S: BuildHasher, R: Wait>(
    rt: &R,
    alloc: Global,
    station: &Station<B, S>,
    numbers: &[u64],
    fault: ServeFault<B>,
) -> Answered<B>
    ensures parts { result.till.parts ≡ fault.till.parts }
    ensures ran { result.ran ≡ Err fault.cause }
    ensures told { IfOk result.told (λ told. IsPassToldAlone station.now fault.till result.till numbers.now
        told.answers.items told.booked.items) }
{
    let ServeFault { cause, mut till } = fault;
    let told = told_of(rt, alloc, station, numbers, &mut till, Filed::none(alloc));
    Answered {
        till,
        ran: Err(cause),
        told,
    }
}

/// What is told of the uplinks with these numbers, of which workers ended some so.
fn told_of<B: Ledger, S: BuildHasher, R: Wait>(
    rt: &R,
    alloc: Global,
    station: &Station<B, S>,
    numbers: &[u64],
    till: &mut Till<B>,
    filed: Filed,
) -> Result<Told, NoMemory>
    requires { IsByNumber (filing filed) }
    ensures parts { till.new.parts ≡ till.old.parts }
    ensures told { IfOk result
        (λ told. IsPassToldFrom station.now till.old till.new (filing filed) numbers.now told.answers.items told.booked.items) }
{
    let mut filed = filed;
    let left = left_of(alloc, &filed, numbers)?;
    take_up(rt, station, left.as_slice(), till, &mut filed)?;
    let answers = answers(alloc, &mut filed, numbers)?;
    Ok(Told {
        answers,
        booked: filed.receipts,
    })
}

/// Takes up the uplinks with these numbers on the calling thread, each once, and files what becomes of them by number. Mostly
/// there are none, and what is by number stays as it is.
fn take_up<B: Ledger, S: BuildHasher, R: Wait>(
    rt: &R,
    station: &Station<B, S>,
    numbers: &[u64],
    till: &mut Till<B>,
    filed: &mut Filed,
) -> Result<(), NoMemory>
    requires { IsByNumber (filing filed.old) }
    ensures parts { till.new.parts ≡ till.old.parts }
    ensures filed { OnOk result (HasFiledInOrder station.now numbers.now till.old till.new (filing filed.old) (filing filed.new)) }
    ensures sorted { OnOk result (IsByNumber (filing filed.new)) }
{
    if numbers.is_empty() {
        return Ok(());
    }
    answer_each(rt, station, numbers, till, filed)?;
    filed.sort();
    Ok(())
}

/// The same, and files what becomes of them behind what there was.
fn answer_each<B: Ledger, S: BuildHasher, R: Wait>(
    rt: &R,
    station: &Station<B, S>,
    numbers: &[u64],
    till: &mut Till<B>,
    filed: &mut Filed,
) -> Result<(), NoMemory>
    ensures parts { till.new.parts ≡ till.old.parts }
    ensures filed { OnOk result (HasFiled station.now numbers.now till.old till.new (filing filed.old) (filing filed.new)) }
{
    for number in numbers {
        let turn = station.answer(rt, &NoGate, *number, till, &mut 0);
        file(filed, *number, turn)?;
    }
    Ok(())
}

/// Files what became of the uplink with this number.
fn file(filed: &mut Filed, number: u64, turn: Handled<Global>) -> Result<(), NoMemory>
    ensures { OnOk result (IsFiled number turn (filing filed.old) (filing filed.new)) }
{
    let receipt = match turn {
        Handled::NotTaken(fault) => {
            filed.refused.push((number, fault))?;
            None
        }
        Handled::Settled(outcome, receipt) => {
            filed.outcomes.push(outcome)?;
            receipt
        }
        Handled::Stray(_, receipt) => {
            filed.strays.push(number)?;
            receipt
        }
    };
    if let Some(receipt) = receipt {
        filed.receipts.push(receipt)?;
    }
    Ok(())
}
