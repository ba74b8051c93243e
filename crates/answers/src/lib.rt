// What an answer says in 01's terms, and what an answer with output leaves in a lent buffer: definitions in specs/, theorems in proofs/. The code is one trait,
// which each error of the library implements (a `Fault` within `ReadError`).

#![tactic(auto)]

ghost use Rattle.std.specs.Prelude.{◌≡◌};
ghost use Rattle.answers.specs.Answer.{Answer, refusal_number, value_of};

// Why a call was refused.
pub trait Refusal: Copy {
    // What the refusal says in the document's terms.
    ghost says: { Self → Answer };

    // The document's number.
    fn number(self) -> u8
        ensures { result ≡ refusal_number (says self) };

    // The place that goes with the number, or 0.
    fn place(self) -> usize
        ensures { result ≡ value_of (says self) };
}
