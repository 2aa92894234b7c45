//! What the clauses of a question on supplementing rules say.
ghost use Rattle.std.specs.Prelude.{◌≡◌, ℕ, ◌<◌, Bool, true, List, Contains, length};
ghost use Rattle.pb_base.specs.Sets.{has};
ghost use Rattle.book_model.specs.Book.{IsBook};
ghost use Rattle.book_model.specs.Contents.{Contents};
ghost use Rattle.clause_pool.specs.Clause.{Sat};
ghost use Rattle.clause_pool.specs.Literal.{is_true};
ghost use Rattle.inquiry.specs.Form.{MeetsGoal};
ghost use Rattle.supplement_findings.specs.Clauses.{question_clauses, question_goal};
ghost use Rattle.supplement_findings.specs.Questions.{meets, questions};
ghost use Rattle.supplement_findings.specs.declared.question.SupplementQuestion.{SupplementQuestion};

/// A question that is told as undecided rests on clauses that say what it asks for: where some set of the book's codes shows it, they
/// are met with its goal, and whatever meets them with it begins with such a set. The call does nothing.
pub fn question_laws()
    ensures met { (b : Contents) (day : ℕ) (q : SupplementQuestion) (x : List Bool) → IsBook b
        → Contains (questions b day) q → length x ≡ length b.codes → meets b day q x ≡ true
        → MeetsGoal (question_clauses b day q) (question_goal b day q) }
    ensures shown { (b : Contents) (day : ℕ) (q : SupplementQuestion) (x : List Bool) (a : ℕ → Bool) → IsBook b
        → Contains (questions b day) q → length x ≡ length b.codes
        → ((i : ℕ) → i < length b.codes → a i ≡ has x i) → Sat (question_clauses b day q) a
        → is_true a (question_goal b day q) ≡ true → meets b day q x ≡ true }
{}
