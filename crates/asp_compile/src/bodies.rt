//! The distinct bodies of rules, by number.
ghost use Rattle.std.specs.Prelude.{◌≡◌, ◌<◌, ◌^◌, [], IfOk, length, map};
ghost use Rattle.asp_vars.specs.Numbering.{body_eq, place_of, with_body};
ghost use Rattle.asp_compile.specs.Forms.{body_of};

use crate::form::{Form, key};
use std::alloc::{AllocError, Global};
use std::collections::HashMap;
use std::marker::Model;

/// Different bodies in normal form, in the order in which they came. Contracts see their list.
#[derive(Drop)]
pub struct Bodies {
    /// The bodies, in the order in which they came.
    forms: Vec<Form>,
    /// Where the body with this key stands.
    places: HashMap<Vec<i64>, u32>,
}

impl Model for Bodies {
    ghost use Rattle.std.specs.Prelude.{List, map};
    ghost use Rattle.asp_model.specs.declared.program.Body.{Body};

    ghost Value = { List Body };

    ghost use Rattle.asp_compile.specs.Forms.{body_of};
    ghost use Rattle.asp_compile.specs.Placed.{IsPlaced};

    ghost view = { λ b. map body_of b.forms.items };

    ghost invariant = { IsPlaced };
}

impl Bodies {
    pub fn new(alloc: Global) -> Bodies
        ensures { result ≡ [] }
    {
        Bodies {
            forms: Vec::new(alloc),
            places: HashMap::new(alloc),
        }
    }

    /// The bodies.
    pub fn forms(&self) -> &[Form]
        ensures { map body_of result.now ≡ self.now }
    {
        self.forms.as_slice()
    }

    /// The list with the body in it, and the body's place there.
    pub fn with(self, alloc: Global, form: Form) -> Result<(Bodies, u32), AllocError>
        requires { length self < 2 ^ 31 }
        ensures bodies { IfOk result (λ r. r.0 ≡ with_body self (body_of form)) }
        ensures place { IfOk result (λ r. r.1 ≡ place_of (body_eq (body_of form)) r.0) }
    {
        let Bodies {
            mut forms,
            mut places,
        } = self;
        let key = key(alloc, &form)?;
        match places.get(&key).copied() {
            Some(place) => Ok((Bodies { forms, places }, place)),
            None => {
                let place = forms.as_slice().len() as u32;
                forms.push(form)?;
                places.insert(key, place)?;
                Ok((Bodies { forms, places }, place))
            }
        }
    }
}
