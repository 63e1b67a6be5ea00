// The busiest hours in a report.
ghost use Rattle.std.specs.Prelude.{◌≡◌, ◌+◌, ◌≤◌, ◌∷◌, ◌++◌, length, codes};
ghost use Rattle.text_lines.specs.Line.{text_of};
ghost use Rattle.text_words.specs.Words.{spaced};
ghost use Rattle.text_words.specs.Busiest.{gateway_words, busiest_lines, all_busiest_lines};

use crate::words::add_band;
use gateway_book::GatewayBook;
use radio_bands::Band;
use resv_list::Roster;
use text_lines::{TextLine, add_number};

/// Adds a line for each sub-band's busiest hour, where the sub-band has one, with the gateway's id if it is given.
pub fn add_busiest<B: Roster>(text: &mut TextLine, gateway: Option<u16>, book: &GatewayBook<B>)
    requires { length text.old + 480 ≤ 1024 }
    ensures { text.new ≡ text.old ++ text_of (all_busiest_lines gateway book.now.list) }
{
    add_hour(text, gateway, book, Band::K);
    add_hour(text, gateway, book, Band::L);
    add_hour(text, gateway, book, Band::M);
    add_hour(text, gateway, book, Band::N);
    add_hour(text, gateway, book, Band::P);
    add_hour(text, gateway, book, Band::Q);
}

/// Adds the line of a sub-band's busiest hour, if the sub-band has one.
fn add_hour<B: Roster>(text: &mut TextLine, gateway: Option<u16>, book: &GatewayBook<B>, band: Band)
    requires { length text.old + 80 ≤ 1024 }
    ensures text { text.new ≡ text.old ++ text_of (busiest_lines gateway book.now.list band) }
    ensures len { length text.new ≤ length text.old + 80 }
{
    if let Some((from, spent)) = book.busiest(band) {
        begin_hour(text, gateway);
        add_band(text, band);
        add_number(text, from);
        add_number(text, spent);
        text.text(b"\n");
    }
}

/// Adds the first words of such a line.
fn begin_hour(text: &mut TextLine, gateway: Option<u16>)
    requires { length text.old + 28 ≤ 1024 }
    ensures text { text.new ≡ text.old ++ spaced (codes "busiest" ∷ gateway_words gateway) }
    ensures len { length text.new ≤ length text.old + 28 }
{
    text.text(b"busiest");
    if let Some(id) = gateway {
        add_number(text, id as u64);
    }
}
