ghost use Rattle.std.specs.Prelude.{◌≡◌, is_some, option_map};
ghost use Rattle.serde_json.specs.Data.{Data};
ghost use Rattle.serde_json.specs.Find.{as_null, as_bool, as_number, as_str};
ghost use Rattle.serde_json.specs.View.{number_view};

use serde_json::{Number, Value};

/// What stands for a JSON value and can be asked for what it is, as a `serde_json::Value` does.
pub trait Json {
    /// The JSON value that it stands for.
    ghost means: { Self → Data };

    /// Whether it is null.
    fn is_null(&self) -> bool
        ensures { result ≡ is_some (as_null (means self.now)) };

    /// Which of true and false it is, where it is one of them.
    fn as_bool(&self) -> Option<bool>
        ensures { result ≡ as_bool (means self.now) };

    /// The number that it is, where it is one.
    fn as_number(&self) -> Option<&Number>
        ensures { option_map (λ n. number_view n.now) result ≡ as_number (means self.now) };

    /// The text that it is, where it is one.
    fn as_str(&self) -> Option<&str>
        ensures { option_map (λ s. s.now) result ≡ as_str (means self.now) };
}

impl Json for Value {
    ghost use Rattle.serde_json.specs.View.{view};

    ghost means = { view };

    fn is_null(&self) -> bool {
        Value::is_null(self)
    }

    fn as_bool(&self) -> Option<bool> {
        Value::as_bool(self)
    }

    fn as_number(&self) -> Option<&Number> {
        Value::as_number(self)
    }

    fn as_str(&self) -> Option<&str> {
        Value::as_str(self)
    }
}
