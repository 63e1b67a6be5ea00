// Laws of the crates below are called here, as a crate above sees them: their clauses can say no less than their statements.
ghost use Rattle.text_lines.specs.Number.{NumbersReadBack};
ghost use Rattle.radio_bands.specs.Band.{AtMostOneBand};
ghost use Rattle.resv_list.specs.Nearest.{NearestAreFound};
ghost use Rattle.resv_list.specs.OnAir.{OnAirIsCounted};
ghost use Rattle.lora_frame.specs.Counter.{InferIsLeast};
ghost use Rattle.lora_frame.specs.Laws.{DeviceDecrypts, UplinkReadsBack};
ghost use Rattle.rx_windows.specs.Laws.{OneRanking, OnGatewaysThatHeard};
ghost use Rattle.run_lines.specs.WholeLines.{LinesAreWhole};
ghost use Rattle.server_core.specs.BookCalls.{BookCallsAreSteps};
ghost use Rattle.server_core.specs.DeskCalls.{DeskCallsAreSteps};
ghost use Rattle.server_core.specs.Headline.{EveryRunKeepsHeadline};
ghost use Rattle.server_core.specs.Promise.{EveryInterleavingIsSafe};
ghost use Rattle.server_core.specs.Resumed.{EveryResumedRunKeepsHeadline};
ghost use Rattle.server_core.specs.Staying.{OthersLeaveAlone};

use lora_frame::{law_device_decrypts, law_infer_is_least, law_uplink_reads_back};
use radio_bands::law_at_most_one_band;
use resv_list::{law_nearest_are_found, law_on_air_is_counted};
use run_lines::law_lines_are_whole;
use rx_windows::{law_candidates_on_gateways_that_heard, law_one_ranking};
use server_core::{
    law_book_calls_are_steps, law_desk_calls_are_steps, law_every_interleaving,
    law_every_resumed_run_keeps_headline, law_every_run_keeps_headline, law_others_leave_alone,
};
use std::alloc::Allocator;
use text_lines::law_numbers_read_back;

/// Each law by a call of its own: so each ensures just this statement, and asks for nothing.
fn each_law<A: Allocator>()
    ensures numbers_read_back { NumbersReadBack }
    ensures at_most_one_band { AtMostOneBand }
    ensures nearest_are_found { NearestAreFound }
    ensures on_air_is_counted { OnAirIsCounted }
    ensures infer_is_least { InferIsLeast }
    ensures device_decrypts { DeviceDecrypts }
    ensures uplink_reads_back { UplinkReadsBack }
    ensures one_ranking { OneRanking }
    ensures on_gateways_that_heard { OnGatewaysThatHeard }
    ensures lines_are_whole { LinesAreWhole }
    ensures every_interleaving { EveryInterleavingIsSafe }
    ensures every_run_keeps_headline { EveryRunKeepsHeadline }
    ensures every_resumed_run_keeps_headline { EveryResumedRunKeepsHeadline }
    ensures desk_calls_are_steps { DeskCallsAreSteps }
    ensures book_calls_are_steps { BookCallsAreSteps A }
    ensures others_leave_alone { OthersLeaveAlone }
{
    law_numbers_read_back();
    law_at_most_one_band();
    law_nearest_are_found();
    law_on_air_is_counted();
    law_infer_is_least();
    law_device_decrypts();
    law_uplink_reads_back();
    law_one_ranking();
    law_candidates_on_gateways_that_heard();
    law_lines_are_whole();
    law_every_interleaving();
    law_every_run_keeps_headline();
    law_every_resumed_run_keeps_headline();
    law_desk_calls_are_steps();
    law_book_calls_are_steps::<A>();
    law_others_leave_alone();
}
