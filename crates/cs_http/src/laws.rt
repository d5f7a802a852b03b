ghost use Rattle.std.specs.Prelude.{◌≡◌, ◌↔◌, ℕ, List, [], ◌∷◌, ◌++◌, Some, Result};
ghost use Rattle.cs_link.specs.declared.reading.Closing.{Closing};
ghost use Rattle.cs_http.specs.Line.{closing_reading, IsClosing};
ghost use Rattle.cs_http.specs.declared.fault.WireFault.{WireFault};
ghost use Rattle.cs_http.specs.Reading.{IsWhole, IsReading};
ghost use Rattle.cs_http.specs.Front.{IsHeadText};
ghost use Rattle.cs_http.specs.Refusal.{answer_head_text, refusal_head_text, refusal_text};

use cs_json_reading::stamp_readings_are_spellings;

/// A law: a head that stands at the front of an answer is all of the answer's head, with the status
/// 200, and one at the front of a refused READ is all of the refusal's, with the status 400; and
/// what a refused READ is answered is that head, its body and a line end.
pub fn heads_stand_alone()
    ensures answers { (front more lines : List ℕ) (status : ℕ) → ∥ IsHeadText front status ∥₁ → front ++ more ≡ answer_head_text ++ lines → (status ≡ 200) × (front ≡ answer_head_text) }
    ensures refusals { (front more lines : List ℕ) (status : ℕ) → ∥ IsHeadText front status ∥₁ → front ++ more ≡ refusal_head_text ++ lines → (status ≡ 400) × (front ≡ refusal_head_text) }
    ensures refused { (line : List ℕ) → refusal_text 400 line ≡ refusal_head_text ++ line ++ 10 ∷ [] }
{}

/// A law: a line is read as an ending exactly where it is that ending's closing line, with any text
/// of the stamp as its moment.
pub fn closing_lines_are_read()
    ensures { (line : List ℕ) (closing : Closing) → (closing_reading line ≡ Some closing) ↔ IsClosing closing line }
{
    stamp_readings_are_spellings();
}

/// A law: a request that is there to its end is read, or refused, in the same way with any bytes
/// behind it.
pub fn requests_end()
    ensures { (bytes more : List ℕ) (r : Result (List ℕ) WireFault) → IsWhole r → IsReading bytes r → IsReading (bytes ++ more) r }
{}
