//! What determines the text of kept orders that are judged again, what the clauses of a position say, and that a service is a run.
ghost use Rattle.std.specs.Prelude.{◌≡◌, ℕ, ◌<◌, Bool, true, List, length};
ghost use Rattle.std.specs.List.{IsDistinct};
ghost use Rattle.pb_base.specs.Names.{same_name};
ghost use Rattle.pb_base.specs.Sets.{has};
ghost use Rattle.clause_pool.specs.Clause.{Sat};
ghost use Rattle.clause_pool.specs.Literal.{is_true};
ghost use Rattle.inquiry.specs.Form.{MeetsGoal};
ghost use Rattle.book_compare.specs.Asked.{asked_clauses, asked_goal};
ghost use Rattle.book_compare.specs.Common.{DiffersWith};
ghost use Rattle.book_compare.specs.Comparing.{AreBooks};
ghost use Rattle.pb_base.specs.Picked.{picked};
ghost use Rattle.book_commands.specs.RunReply.{RunReply};
ghost use Rattle.book_model.specs.Contents.{Contents};
ghost use Rattle.book_commands.specs.declared.run_status.RunStatus.{RunStatus};
ghost use Rattle.command_words.specs.Meaning.{Asks};
ghost use Rattle.command_words.specs.Parts.{Words};
ghost use Rattle.command_words.specs.Rejudging.{Rejudging};
ghost use Rattle.command_words.specs.Service.{Service};
ghost use Rattle.command_words.specs.declared.task.Task.TheVariants.{Serve};
ghost use Rattle.commands.specs.Impacted.{RepliesToImpact};
ghost use Rattle.commands.specs.Outside.{Outside};
ghost use Rattle.commands.specs.Rejudged.{RepliesToRejudge};
ghost use Rattle.commands.specs.Run.{IsRun};
ghost use Rattle.commands.specs.Serves.{RunsService};
ghost use Rattle.order_desk.specs.Tables.{Tables};

/// What a desk keeps and the other book determine the reply, to the last byte: how many workers the words name makes no difference.
/// The call does nothing.
pub fn rejudge_laws()
    ensures rejudge { (asked other : Rejudging) (t : Tables) (one two : RunReply) → asked.book ≡ other.book
        → RepliesToRejudge asked t one → RepliesToRejudge other t two → one ≡ two }
    ensures impact { (b : Contents) (t : Tables) (one two : RunReply)
        → RepliesToImpact b t one → RepliesToImpact b t two → one ≡ two }
{}

/// A position that is told as undecided rests on clauses that say what it asks for: where some codes differ at it, they are met with
/// its goal, and whatever meets them with it begins with such codes. The call does nothing.
pub fn position_laws()
    ensures met { (first second : Contents) (day : ℕ) (id : List ℕ) (names : List (List ℕ)) → AreBooks first second day
        → DiffersWith first second day id names
        → MeetsGoal (asked_clauses first second day id) (asked_goal first second day id) }
    ensures shown { (first second : Contents) (day : ℕ) (id : List ℕ) (set : List Bool) (a : ℕ → Bool)
        → AreBooks first second day → IsDistinct same_name first.codes
        → ((i : ℕ) → i < length first.codes → a i ≡ has set i) → Sat (asked_clauses first second day id) a
        → is_true a (asked_goal first second day id) ≡ true
        → DiffersWith first second day id (picked first.codes set) }
{}

/// A service that the words ask for is a run. The call does nothing.
pub fn service_law()
    ensures { (words : Words) (service : Service) (before after : Outside) (status : RunStatus)
        → Asks words (Serve service) → RunsService service before after status → IsRun words before after status }
{}
