ghost use Rattle.std.specs.Prelude.{◌≡◌, is_some, option_map};

use crate::Tree;
use cs_types::Json;
use serde_json::Number;

impl<'a> Json for Tree<'a> {
    ghost use Rattle.cs_tree.specs.View.{view};

    ghost means = { view };

    fn is_null(&self) -> bool {
        matches!(self, Tree::Null)
    }

    fn as_bool(&self) -> Option<bool> {
        if let Tree::Bool(b) = self {
            Some(*b)
        } else {
            None
        }
    }

    fn as_number(&self) -> Option<&Number> {
        if let Tree::Number(number) = self {
            Some(number)
        } else {
            None
        }
    }

    fn as_str(&self) -> Option<&str> {
        if let Tree::Text(text) = self {
            Some(*text)
        } else {
            None
        }
    }
}
