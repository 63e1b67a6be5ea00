ghost use Rattle.gateway_book.specs.Laws.{SpacedIsApart, GapKeepsDisjoint, FirstHasLeastStart, LeastIsLeast};
ghost use Rattle.gateway_book.specs.Laws.{FewHoursSuffice, DutyRowIsExact, BusiestIsExact, OnAirKeepsLimit};
ghost use Rattle.gateway_book.specs.Earliest.{EarliestCandidates};
ghost use Rattle.gateway_book.specs.EarliestValue.{EarliestIsExact};
ghost use Rattle.gateway_book.specs.Forgetting.{ForgettingIsUnseen};
ghost use Rattle.gateway_book.specs.Loading.{BooksMayBeSaved, SavedIsReadAgain, LoadedWasSaved};

/// Members at different places of a list by start are disjoint, with a gap between them, exactly where each begins no earlier
/// than the one before it ends and the gap passes.
pub fn law_spaced_is_apart()
    ensures { SpacedIsApart }
{}

/// A list that a gateway with a gap may hold is one that a gateway with any smaller gap may hold; so its members are disjoint.
pub fn law_gap_keeps_disjoint()
    ensures { GapKeepsDisjoint }
{}

/// The first member of a list by start that passes a test, as that it overlaps, has the least start of
/// those that do.
pub fn law_first_has_least_start()
    ensures { FirstHasLeastStart }
{}

/// The least of some numbers is one of them, and none of them is less.
pub fn law_least_is_least()
    ensures { LeastIsLeast }
{}

/// Of all hours that hold a start, only those want a look that open at it, or at the start of a member
/// of its sub-band within the hour before it: where none of these would pass the limit, none would.
pub fn law_few_hours_suffice()
    ensures { FewHoursSuffice }
{}

/// `DutyFull` comes exactly where some hour, wherever it opens, would pass the limit;
/// it names the least start, of the ask or of a member of its sub-band, at which such an hour opens;
/// and there is one such answer.
pub fn law_duty_row_is_exact()
    ensures { DutyRowIsExact }
{}

/// The busiest hour of a sub-band, over hours that open at any moment, is the one that is answered, and
/// there is one such answer.
pub fn law_busiest_is_exact()
    ensures { BusiestIsExact }
{}

/// Of a list that a gateway may hold no hour has more of a sub-band on air than its limit, wherever it opens: of what begins before
/// the hour, or ends after it, the part counts that lies within. So a book, which looks at what begins within an hour, keeps
/// the limit as a measuring receiver finds it too.
pub fn law_on_air_keeps_limit()
    ensures { OnAirKeepsLimit }
{}

/// The earliest start at which an ask is accepted, from one moment to another, is the one value that is answered, for every
/// list of transmissions.
pub fn law_earliest_is_exact()
    ensures { EarliestIsExact }
{}

/// The earliest start at which an ask is accepted is the least allowed one (the greater of the moment from which it is
/// looked for and the floor), the end of a transmission plus the gap, or an hour after the start of one: no other start can be.
pub fn law_earliest_candidates()
    ensures { EarliestCandidates }
{}

/// What a floor has put out of sight, a transmission that began more than an hour before it, is seen in no such answer (the
/// airtime of one and the gap are together below an hour): for every gap that a gateway may have, and every list of
/// transmissions that begin at different moments, by start or not, lawful or not, a book that keeps the
/// rest alone answers every ask, every cancel and every tick as one that keeps all, with the same refusals, hours and sums,
/// and so every list of these; what each keeps afterwards is the same; and a lawful list stays lawful.
pub fn law_forgetting()
    ensures { ForgettingIsUnseen }
{}

/// Every book may be saved, up to the greatest floor that there is.
pub fn law_books_may_be_saved()
    ensures { BooksMayBeSaved }
{}

/// What is saved of a book is read again, whatever bytes follow the text: the same gateway, floor and list.
pub fn law_saved_is_read_again()
    ensures { SavedIsReadAgain }
{}

/// A text that is read is one that is saved: the book may be saved, and the bytes are its text in one of the two versions, and
/// what follows it.
pub fn law_loaded_was_saved()
    ensures { LoadedWasSaved }
{}
