// The answers to the uplinks that one `pass` closed.
ghost use Rattle.std.specs.Prelude.{◌≡◌, IfOk};
ghost use Rattle.std.specs.List.Sorted.{IsNonDecreasingBy};
ghost use Rattle.run_server.specs.PassAnswers.{line_alone, sent_answer, booked_answer, answer_to, told_receipt, AreTold};

use crate::numbered::place_of;
use crate::pass_ends::End;
use answer_ticket::{Bytes, Ending, Receipt};
use gateway_book::Refusal;
use server_core::{Line, NoMemory, refused_line};
use std::alloc::Global;
use std::mem::replace;

/// The answer to an uplink.
#[derive(Drop)]
pub struct Answer {
    /// The number of the uplink's gathering.
    pub number: u64,
    /// How it ended.
    pub line: Line<Global>,
    /// The bytes of PHYPayload that the gateway is to send, where there are any; they are told in a line of their own.
    pub frame: Option<Bytes<Global>>,
}

/// The answer to an uplink that ended so, where these receipts are by number; one is looked for at the likely place first. A
/// frame is moved out of its receipt, or copied.
pub(crate) fn answer_to(
    alloc: Global,
    number: u64,
    end: End,
    receipts: &mut [Receipt<Global>],
    likely: &mut usize,
    is_moved: bool,
) -> Result<Answer, NoMemory>
    requires { IsNonDecreasingBy (λ r. r.number) receipts.old }
    ensures answer { IfOk result (λ answer. answer ≡ answer_to receipts.old number end) }
    ensures told { AreTold is_moved number receipts.old receipts.new }
{
    match end {
        End::Settled(Ending::Answered { carried, .. }) => {
            booked(alloc, number, carried, receipts, likely, is_moved)
        }
        End::Settled(Ending::Unanswered(refusal)) => Ok(unanswered(number, refusal)),
        End::Settled(Ending::GivenUp) => Ok(unanswered(number, Refusal::NoMemory)),
        End::Refused(fault) => Ok(line_alone(number, refused_line(number, fault))),
        End::Stray => Ok(line_alone(number, Line::Stray { number })),
    }
}

/// The answer to an uplink for which was booked what its receipt names; one without a receipt is named a stray.
fn booked(
    alloc: Global,
    number: u64,
    carried: bool,
    receipts: &mut [Receipt<Global>],
    likely: &mut usize,
    is_moved: bool,
) -> Result<Answer, NoMemory>
    requires { IsNonDecreasingBy (λ r. r.number) receipts.old }
    ensures answer { IfOk result (λ answer. answer ≡ booked_answer receipts.old number carried) }
    ensures told { AreTold is_moved number receipts.old receipts.new }
{
    let Some(at) = place_of(receipts, *likely, number) else {
        return Ok(line_alone(number, Line::Stray { number }));
    };
    *likely = at.saturating_add(1);
    sent(alloc, number, carried, &mut receipts[at], is_moved)
}

/// The answer that a receipt names, with its frame.
fn sent(
    alloc: Global,
    number: u64,
    carries: bool,
    receipt: &mut Receipt<Global>,
    is_moved: bool,
) -> Result<Answer, NoMemory>
    ensures answer { IfOk result (λ answer. answer ≡ sent_answer number carries receipt.old) }
    ensures told { receipt.new ≡ told_receipt is_moved receipt.old }
{
    let candidate = receipt.candidate(carries);
    let frame = frame_of(alloc, receipt, is_moved)?;
    Ok(Answer {
        number,
        line: Line::Send { number, candidate },
        frame: Some(frame),
    })
}

/// The frame of a receipt, moved out of it, or copied.
fn frame_of(
    alloc: Global,
    receipt: &mut Receipt<Global>,
    is_moved: bool,
) -> Result<Bytes<Global>, NoMemory>
    ensures frame { IfOk result (λ frame. frame ≡ receipt.old.frame) }
    ensures told { receipt.new ≡ told_receipt is_moved receipt.old }
{
    if is_moved {
        return Ok(replace(&mut receipt.frame, Bytes::new(Vec::new(alloc))));
    }
    let mut frame = Vec::new(alloc);
    frame.extend_from_slice(receipt.frame.as_slice())?;
    Ok(Bytes::new(frame))
}

/// The answer where every candidate was refused.
fn unanswered(number: u64, refusal: Refusal) -> Answer
    ensures { result ≡ line_alone number (Line.Unanswered number refusal) }
{
    line_alone(number, Line::Unanswered { number, refusal })
}

/// An answer without a frame.
fn line_alone(number: u64, line: Line<Global>) -> Answer
    ensures { result ≡ line_alone number line }
{
    Answer {
        number,
        line,
        frame: None,
    }
}
