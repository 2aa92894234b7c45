//! The law of a stop.
ghost use Rattle.std.specs.Prelude.{◌≡◌, ℕ, true, Bool, List, Option, Some, None, IfSome};
ghost use Rattle.desk_words.specs.declared.order_words.OrderWords.{OrderWords};
ghost use Rattle.journal_keeper.specs.declared.stage.Stage as stage;
ghost use Rattle.journal_keeper.specs.declared.stage.Stage.TheVariants as Stage;
ghost use Rattle.journal_keeper.specs.Journal.{kept_in};
ghost use Rattle.journal_keeper.specs.Record.{Entry};
ghost use Rattle.journal_keeper.specs.Record as put;
ghost use Rattle.journal_keeper.specs.Stage.{seen_by, doubted_by, is_open, StandsOrGrew, IsBegun, IsFound};
ghost use Rattle.keeper.specs.Rows.{begun};
ghost use Rattle.order_desk.specs.declared.answer.Answer.{Answer};
ghost use Rattle.order_desk.specs.declared.event.Event.{Event};
ghost use Rattle.order_desk.specs.declared.event.Event.TheVariants as Event;
ghost use Rattle.order_desk.specs.declared.order_key.OrderKey.{OrderKey};
ghost use Rattle.order_desk.specs.Effect.{keeps, effect};
ghost use Rattle.order_desk.specs.Fits.{Fits};
ghost use Rattle.order_desk.specs.Rows.{rows_of, IsDesk};
ghost use Rattle.order_desk.specs.Tables.{Tables, key_of, order_at};
ghost use Rattle.order_desk.specs.Valid.{IsValid};
ghost use Rattle.turn_book.specs.History.{end_of};
ghost use Rattle.journal_desk.specs.Run.{Standing, History, IsStart, IsRun, MayBeLeft, IsStartedOn, WasCutOff, WasPlaced, IsThatOrOneMore};
ghost use Rattle.journal_desk.specs.Stop.{put_of, MayFind, IsEither};

/// What holds of a desk over a `JournalKeeper`. What an event keeps, it keeps by one put. By what the keeper promises of
/// each moment of a put, a start after a stop in that call finds the rows from before the call or those after it, or, where
/// the gate of an earlier put is in doubt, those with that put, whose call was answered with a store fault. So the desk
/// that is started has the tables from before or after the call, with each order that was kept before it. An order that
/// the call answers as placed is among those after it. The call does nothing.
pub fn stop_laws()
    ensures one_put { (t : Tables) (event : Event) (due : Answer) (after : Tables)
        → effect t event ≡ keeps due after
        → (entry : Entry) × (put_of t event ≡ Some entry) × (rows_of after ≡ put.effect entry (rows_of t)) }
    ensures moment { (t : Tables) (event : Event) (due : Answer) (after : Tables) (entry : Entry) (gate : ℕ)
        (in_doubt : Bool) (file image : List ℕ) → effect t event ≡ keeps due after
        → put_of t event ≡ Some entry → seen_by (Stage.Open gate in_doubt) file ≡ rows_of t
        → StandsOrGrew entry (Stage.Open gate in_doubt) file image
        → MayFind t after (Stage.Open gate in_doubt) file image }
    ensures started { (t after found : Tables) (gate : ℕ) (in_doubt : Bool) (file image : List ℕ)
        → IsValid t → IsValid after → MayFind t after (Stage.Open gate in_doubt) file image
        → doubted_by (Stage.Open gate in_doubt) file ≡ None
        → IsDesk found (Some (begun (kept_in image))) → IsEither t after found }
    ensures kept { (t : Tables) (event : Event) (due : Answer) (after found : Tables) (key : OrderKey)
        (order : OrderWords) → effect t event ≡ keeps due after → IsEither t after found
        → order_at t.orders key ≡ Some order → order_at found.orders key ≡ Some order }
    ensures placed { (t : Tables) (caller : List ℕ) (number : ℕ) (order : OrderWords) (due : Answer)
        (after : Tables) → effect t (Event.Place caller number order) ≡ keeps due after
        → order_at after.orders (key_of caller number) ≡ Some order }
{}

/// What holds of a whole run of a desk over a `JournalKeeper`: a start, a history of calls, and at the stop maybe one that
/// goes on. A desk that is started on what is left then has the tables that the first desk was started with, changed by all
/// events of the history that were answered with a change, or these changed by one event more: the one that went on, or one
/// that was answered with a store fault. So each order that was answered as placed is kept. A stop within a start leaves
/// what the next start finds the same; and where a started desk tells its rows, its keeper has a journal. What the keeper
/// promises of each moment, and of the gate that may be in doubt, is told by its clauses `any_moment`, `stands` and
/// `doubt`. The call does nothing.
pub fn run_laws()
    ensures whole_run { (start : Standing) (history : History) (going : Option Event) (image : List ℕ)
        (found : Tables) → IsStart start → IsRun start history
        → IfSome going (Fits (end_of start history).desk.tables)
        → MayBeLeft (end_of start history) going image → IsStartedOn image found
        → IsThatOrOneMore (end_of start history).desk.tables (WasCutOff history going) found }
    ensures answered { (start : Standing) (history : History) (going : Option Event) (found : Tables)
        (caller : List ℕ) (number : ℕ) (order : OrderWords) → IsRun start history
        → IsThatOrOneMore (end_of start history).desk.tables (WasCutOff history going) found
        → WasPlaced history caller number order
        → order_at found.orders (key_of caller number) ≡ Some order }
    ensures started_again { (file image : List ℕ) (t found : Tables)
        → IsBegun Stage.Shut file (λ other. other ≡ file) image
        → IsStartedOn file t → IsStartedOn image found → found ≡ t }
    ensures opened { (stage : stage.Stage) (file : List ℕ) (t : Tables) → IsFound stage file
        → seen_by stage file ≡ rows_of t → is_open stage ≡ true }
{}
