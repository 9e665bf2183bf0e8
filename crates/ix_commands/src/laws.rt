//! Laws of answers, as contracts of functions that do nothing.

ghost use Rattle.std.specs.Prelude.{◌≡◌, ℕ, List, Option};
ghost use Rattle.ix_replies.specs.Answer.{Answer};
ghost use Rattle.ix_front.specs.Found.{Finding, Found};
ghost use Rattle.ix_words.specs.Commands.{Command};
ghost use Rattle.ix_commands.specs.Answers.{Answers};
ghost use Rattle.ix_commands.specs.Existence.{HasListed, Unanswered};
ghost use Rattle.ix_commands.specs.Promises.{SafeAsNamed, AcceptedBy};

/// The answer to words and bytes is one: a status, and what each sink is to take.
pub fn answers_are_one()
    ensures one { (command : Option Command) (bytes : List ℕ) (cert : Option (List ℕ)) (first second : Answer) → Answers command bytes cert first → Answers command bytes cert second → first ≡ second }
{}

/// Something is found of all bytes, so that none are a source whose only answer is want of memory; and to all words and bytes there is an answer, if only the
/// errors of a program that `check` or `bench` judges can be listed, the certificate of one that `check --certificate` accepts be written, and the one that `verify` opens be judged.
pub fn there_is_an_answer()
    ensures found { (bytes : List ℕ) → (finding : Finding) × Found bytes finding }
    ensures answered { (command : Option Command) (bytes : List ℕ) (cert : Option (List ℕ)) → HasListed command bytes cert → Unanswered command bytes cert → ⊥ }
{}

/// What `verify` promises by two clauses is said of one profile: the one that the certificate's first line names is the one in which its labels are judged.
pub fn named_profile_accepts()
    ensures same { (bytes : List ℕ) (cert : Option (List ℕ)) (named : SafeAsNamed bytes cert) (accepted : AcceptedBy bytes cert) → accepted.verified.profile ≡ named.profile }
{}
