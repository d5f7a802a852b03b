ghost use Rattle.std.specs.Prelude.{◌≡◌, ◌≢◌, ◌<◌, ◌≤◌, ℕ, List, None, Some, length, slice_index_or, Contains, true};
ghost use Rattle.cs_types.specs.Token.{is_token, are_token_bytes};
ghost use Rattle.cs_partitions.specs.Tokens.{token_of};
ghost use Rattle.cs_place.specs.declared.place.Place.{Place};
ghost use Rattle.cs_place.specs.declared.part.Part.{Part};
ghost use Rattle.cs_partitions.specs.Fault.{first_fault};
ghost use Rattle.cs_partitions.specs.Layout.{StreamParts, IsLayout, new_layout};
ghost use Rattle.cs_partitions.specs.Reshape.{index_named, reshaped};
ghost use Rattle.cs_partitions.specs.Views.{IsHolder, AreLiveByLow};

/// A law: the layout of a new stream, whose name makes tokens, is a layout.
pub fn new_layouts_are_layouts()
    ensures { (stream : List ℕ) (created : ℕ) → is_token (token_of stream 0) ≡ true → IsLayout (new_layout stream created) }
{}

/// A law: what a reshape makes of a layout is a layout.
pub fn reshape_keeps_layouts()
    ensures { (l : StreamParts) (at : ℕ) (tokens : List (List ℕ)) (borders : List Place) → IsLayout l → first_fault l.parts at tokens borders ≡ None → IsLayout (reshaped l at tokens borders) }
{}

/// A law: the index of a token is that of a part with it, and where there is none, no part has it.
pub fn indexes_name_parts()
    ensures found { (token : List ℕ) (parts : List Part) (index : ℕ) → index_named token parts ≡ Some index → (index < length parts) × ((d : Part) → (slice_index_or parts index d).token ≡ token) }
    ensures none { (token : List ℕ) (parts : List Part) → index_named token parts ≡ None → (part : Part) → Contains parts part → part.token ≢ token }
{}

/// A law: of a layout just one part has a place at a moment, from the creation on.
pub fn holders_are_one()
    ensures { (l : StreamParts) (place : Place) (moment index other : ℕ) → IsLayout l → l.created ≤ moment → IsHolder l.parts place moment index → IsHolder l.parts place moment other → index ≡ other }
{}

/// A law: the parts that are live at a moment, in order of low, are one list.
pub fn live_lists_are_one()
    ensures { (parts : List Part) (moment : ℕ) (live other : List Part) → AreLiveByLow parts moment live → AreLiveByLow parts moment other → live ≡ other }
{}

/// A law: who has a place at a moment is not changed by a reshape at a later one.
pub fn holders_stay()
    ensures { (l : StreamParts) (at : ℕ) (tokens : List (List ℕ)) (borders : List Place) (place : Place) (moment index : ℕ) → moment < at → IsHolder l.parts place moment index → IsHolder (reshaped l at tokens borders).parts place moment index }
{}

/// A law: a name of bytes that a token may have, so short that a number may follow, makes tokens.
pub fn names_make_tokens()
    ensures { (name : List ℕ) → are_token_bytes name ≡ true → length name ≤ 1018 → is_token (token_of name 0) ≡ true }
{}
