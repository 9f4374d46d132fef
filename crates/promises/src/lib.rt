// What may be concluded from the packets of a book's calls. The calls are defined in specs/; the functions here do nothing,
// and each has one promise as its contract, so that a check of the crate asks for its proof.
#![tactic(auto)]

ghost use Rattle.promises.specs.Acting.{ActionsDo, MarkIsSet};
ghost use Rattle.promises.specs.EitherOrder.{EitherOrder};
ghost use Rattle.promises.specs.Facts.{Facts};
ghost use Rattle.promises.specs.Lasting.{FirstCounts, NeverGrows, PostedOnce, RejectedLeaveNothing};
ghost use Rattle.promises.specs.NoPairs.{PairsByVerdict};
ghost use Rattle.promises.specs.Promises.{Promises};
ghost use Rattle.promises.specs.ReadBack.{VerdictsFit, ReadsBack};
ghost use Rattle.promises.specs.Replaced.{CheckLeavesOthers, PostLeavesOthers, PostLeavesEarlier, PostLeavesUnlinked};
ghost use Rattle.promises.specs.Tells.{ShowTells, NeverPassTotal};

// Accepted exactly if every check passes, on its own and against the book; else the first failing check is the verdict.
pub fn first_failing_check_counts()
    ensures { FirstCounts }
{}

// A transaction has no pairs exactly if its verdict is 30, or 21, 22, 32 or 51 in its header.
pub fn pairs_by_verdict()
    ensures { PairsByVerdict }
{}

// No action of the book is refused for an accepted transaction, so that the actions do what is defined.
pub fn actions_enter_accepted()
    ensures { ActionsDo }
{}

// Nor is the mark refused that a post sets at its end.
pub fn mark_is_set()
    ensures { MarkIsSet }
{}

// A refusal's code is above 0, and the numbers of a verdict fit their fields in a packet.
pub fn verdicts_fit_packets()
    ensures { VerdictsFit }
{}

// A packet has room, and the file's numbers and its verdicts can be read back from it.
pub fn packets_read_back()
    ensures { ReadsBack }
{}

// For every pair show answers an entry exactly if an accepted transaction has the pair as its own, and then only one has;
// the entry has its Set ID, day and total; the open amount and the accepted adjustments add up to the total. Count answers
// how many were accepted and rejected.
pub fn show_tells_what_was_accepted()
    ensures { ShowTells }
{}

// The accepted adjustments of a transaction never pass its total.
pub fn adjustments_never_pass_total()
    ensures { NeverPassTotal }
{}

// An entry stays, and its open amount never grows.
pub fn open_amount_never_grows()
    ensures { NeverGrows }
{}

// A file that was posted is refused with 6 from then on, and changes nothing.
pub fn file_is_posted_once()
    ensures { PostedOnce }
{}

// Without its rejected transactions a file leaves the same entries and lines.
pub fn rejected_leave_nothing()
    ensures { RejectedLeaveNothing }
{}

// Two files with different File ID Numbers and no pair in common, with places enough for both: each gets the same packet or
// file code in either order, and the book afterwards is the same.
pub fn unrelated_files_in_either_order()
    ensures { EitherOrder }
{}

// One transaction of a file replaced, neither file being refused: check gives every other one the same verdict.
pub fn replaced_one_leaves_others_checked()
    ensures { CheckLeavesOthers }
{}

// So does post, with places enough, where no other transaction has a pair of the old one or of the new one.
pub fn replaced_one_leaves_others_posted()
    ensures { PostLeavesOthers }
{}

// Under post the transactions before a replaced one keep their verdicts in any case.
pub fn replaced_one_leaves_earlier_posted()
    ensures { PostLeavesEarlier }
{}

// And, with places enough, so does every transaction that no chain of shared pairs links to the replaced one.
pub fn replaced_one_leaves_unlinked_posted()
    ensures { PostLeavesUnlinked }
{}

// The three promises of one run of calls, on a book that other calls led to.
pub fn promises_of_a_run()
    ensures { Promises }
{}

// Worked facts: days, open amounts, lines, the smallest packet, and a chain of transactions.
pub fn worked_facts()
    ensures { Facts }
{}
