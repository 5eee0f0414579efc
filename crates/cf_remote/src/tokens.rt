//! What became of the tokens.

ghost use Rattle.std.specs.Prelude.{◌≡◌, [], ◌∷◌, ◌<◌, ◌^◌, None, get_or, length, OnErr, OnOk, option_map};
ghost use Rattle.cf_model.specs.Store.{recorded_at};
ghost use Rattle.cf_remote.specs.Tokens.{recorded_of};
ghost use Rattle.cf_remote.specs.declared.outcomes.TokenRecord.{TokenRecord};

use crate::outcomes::{Outcome, TokenRecord};
use cf_base::{OutOfMemory, Token};
use std::alloc::Global;
use std::collections::BTreeMap;
use std::marker::Model;

/// What became of each token that came. Contracts see the latest first.
#[derive(Drop)]
pub(crate) struct Tokens {
    records: Vec<TokenRecord>,
    places: BTreeMap<Token, usize>,
}

impl Model for Tokens {
    ghost use Rattle.std.specs.Prelude.{List};
    ghost use Rattle.cf_base.specs.declared.ids.Token.{Token};
    ghost use Rattle.cf_model.specs.Store.{Recorded};
    ghost use Rattle.cf_remote.specs.Tokens.{AreKept, tokens_of};

    ghost Value = { List (Token × Recorded) };

    ghost view = { λ t. tokens_of t.records.items };

    ghost invariant = { λ t. AreKept t.records.items t.places };
}

fn outcome_at(records: &[TokenRecord], place: usize) -> Outcome
    requires { place < length records.now }
    ensures { (d : TokenRecord) → result ≡ (get_or records.now place d).outcome }
{
    records[place].outcome
}

impl Tokens {
    pub(crate) fn new(alloc: Global) -> Tokens
        ensures { result ≡ [] }
    {
        Tokens {
            records: Vec::new(alloc),
            places: BTreeMap::new(alloc),
        }
    }

    /// How many tokens came.
    pub(crate) fn len(&self) -> usize
        ensures len { result ≡ length self.now }
        ensures small { result < 2 ^ 63 }
    {
        self.records.len()
    }

    /// What became of the token, if it came before.
    pub(crate) fn get(&self, token: Token) -> Option<Outcome>
        ensures { option_map recorded_of result ≡ recorded_at self.now token }
    {
        let records = self.records.as_slice();
        match self.places.get(&token) {
            None => None,
            Some(place) => Some(outcome_at(records, *place)),
        }
    }

    /// Records what became of a token that has not come before.
    pub(crate) fn record(&mut self, token: Token, outcome: Outcome) -> Result<(), OutOfMemory>
        requires { recorded_at self.old token ≡ None }
        ensures ok { OnOk result (self.new ≡ (token, recorded_of outcome) ∷ self.old) }
        ensures err { OnErr result (self.new ≡ self.old) }
    {
        self.records.reserve(1)?;
        let place = self.records.as_slice().len();
        self.places.insert(token, place)?;
        self.records.push(TokenRecord { token, outcome }).unwrap();
        Ok(())
    }
}
