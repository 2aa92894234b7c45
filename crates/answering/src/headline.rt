//! What the desk's answers come to, in the words of the trade.
ghost use Rattle.std.specs.Prelude.{◌≡◌, ℕ, ◌≤◌, None, Some};
ghost use Rattle.desk_words.specs.declared.call.Call.{Call};
ghost use Rattle.desk_words.specs.declared.call.What.TheVariants as What;
ghost use Rattle.desk_words.specs.declared.order_words.OrderWords.{OrderWords};
ghost use Rattle.desk_words.specs.declared.reply.Reply.{Reply};
ghost use Rattle.order_desk.specs.declared.kept_book.KeptBook.{KeptBook};
ghost use Rattle.order_desk.specs.Tables.{Tables, book_at};
ghost use Rattle.order_desk.specs.Valid.{IsValid};
ghost use Rattle.answering.specs.Answers.{Answers};
ghost use Rattle.answering.specs.Dealt.{IsDealt, IsReleasedAt};
ghost use Rattle.answering.specs.Hand.{Hand};
ghost use Rattle.answering.specs.Headline.{OrderComes, PlacesOrder};

/// What the call of an order comes to, whoever else makes steps of the desk meanwhile. Where the order is new when the call's last
/// event begins, it is accepted exactly where its supplemented codes break no constructibility rule, memory and store allowing,
/// and the list that is printed is then its book's one complete list. Where the same order is kept under its number, it is told the
/// list of its own book, and where another one is, the book of that; neither changes anything. Who is alone finds the desk at that
/// event as it was when the call began. The holder must have seen valid tables, and have the two steps left that such a call may
/// take. Each book of valid tables can be released, and so can one that a reply tells as a draft's. The call does nothing.
pub fn headline_laws()
    ensures orders { (call : Call) (number : ℕ) (order : OrderWords) (h : Hand) (said : Reply) (new : Hand)
        → call.what ≡ What.Order number order → IsValid h.state.tables → 2 ≤ h.left
        → Answers call h said new → PlacesOrder h call.caller number order said new }
    ensures alone { (call : Call) (number : ℕ) (order : OrderWords) (h : Hand) (said : Reply) (new : Hand)
        → call.what ≡ What.Order number order → IsValid h.state.tables → 2 ≤ h.left
        → Answers call h said new → h.book ≡ None
        → OrderComes h.state call.caller number order said new.state }
    ensures books { (t : Tables) (number : ℕ) (b : KeptBook) → IsValid t → book_at t.books number ≡ Some b
        → IsReleasedAt t number }
    ensures calls { (call : Call) (h : Hand) (said : Reply) (new : Hand) → IsValid h.state.tables
        → Answers call h said new → IsDealt call h said new }
{}
