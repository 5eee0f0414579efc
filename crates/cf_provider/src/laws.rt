//! What a refused check says of the operation.
ghost use Rattle.std.specs.Prelude.{◌≡◌, Some};
ghost use Rattle.cf_base.specs.declared.answers.Shown.TheVariants as shown;
ghost use Rattle.cf_base.specs.declared.codes.Code.{Code};
ghost use Rattle.cf_base.specs.declared.operations.Operation.{Operation};
ghost use Rattle.cf_provider.specs.Checks.{base_at, check_of};
ghost use Rattle.cf_model.specs.Books.{Book};
ghost use Rattle.cf_model.specs.Operations.{execute_with, key_of, live_at};
ghost use Rattle.cf_model.specs.State.{Filter};
ghost use Rattle.cf_model.specs.Trees.{Ret};

/// An operation that the check refuses is refused so, and changes nothing.
pub fn check_is_first()
    ensures { (f : Book → Book) (op : Operation) (s : Filter) (c : Code) → check_of op (base_at (live_at (key_of op) s) s) s.waiting ≡ Some c → execute_with f op s ≡ Ret (shown.Refused c) s }
{}
