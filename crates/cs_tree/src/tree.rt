ghost use Rattle.std.specs.Prelude.{◌≡◌, is_some, option_map};
ghost use Rattle.std.specs.Ordering.{nat_cmp, is_eq};
ghost use Rattle.std.specs.Cmp.Lexicographic.{slice_cmp};
ghost use Rattle.serde_json.specs.Find.{as_array, as_object, get, get_member};
ghost use Rattle.cs_tree.specs.View.{view, items_view, members_view};

use crate::Entries;
use serde_json::Number;

/// A JSON value. Its texts are borrowed.
#[derive(Drop)]
pub enum Tree<'a> {
    /// null.
    Null,
    /// true or false.
    Bool(bool),
    /// A number.
    Number(Number),
    /// A text.
    Text(&'a str),
    /// An array.
    Array(Vec<Tree<'a>>),
    /// An object's members, in byte order of their names; of a name that comes twice the last.
    Object(Members<'a>),
}

/// The members of an object, in byte order of their names.
pub type Members<'a> = Entries<&'a str, Tree<'a>>;

/// The member of a name.
pub fn member<'v, 'a>(members: &'v Members<'a>, name: &str) -> Option<&'v Tree<'a>>
    ensures { option_map (λ tree. view tree.now) result ≡ get_member name.now (members_view members.now) }
{
    for entry in members.as_slice() {
        if is_same(name, entry.name) {
            return Some(&entry.tree);
        }
    }
    None
}

#[tactic(auto, using(crate::proofs::Names::is_same_text))]
fn is_same(one: &str, other: &str) -> bool
    ensures { result ≡ is_eq (slice_cmp nat_cmp one.now other.now) }
{
    one == other
}

impl<'a> Tree<'a> {
    /// The member of a name, where it is an object that has one.
    pub fn get(&self, name: &str) -> Option<&Tree<'a>>
        ensures { option_map (λ tree. view tree.now) result ≡ get name.now (view self.now) }
    {
        match self {
            Tree::Object(members) => member(members, name),
            _ => None,
        }
    }

    /// Whether it is an object.
    pub fn is_object(&self) -> bool
        ensures { result ≡ is_some (as_object (view self.now)) }
    {
        match self {
            Tree::Object(_) => true,
            _ => false,
        }
    }

    /// The members, where it is an object.
    pub fn as_object(&self) -> Option<&Members<'a>>
        ensures { option_map (λ m. members_view m.now) result ≡ as_object (view self.now) }
    {
        if let Tree::Object(map) = self {
            Some(map)
        } else {
            None
        }
    }

    /// The items, where it is an array.
    pub fn as_array(&self) -> Option<&[Tree<'a>]>
        ensures { option_map (λ v. items_view v.now) result ≡ as_array (view self.now) }
    {
        if let Tree::Array(items) = self {
            Some(items.as_slice())
        } else {
            None
        }
    }
}
