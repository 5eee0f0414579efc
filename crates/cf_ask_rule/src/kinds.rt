//! Kinds of asks.
ghost use Rattle.std.specs.Prelude.{◌≡◌};
ghost use Rattle.cf_model.specs.Requests.{is_data, is_dehydrate, is_list};

use cf_base::AskKind;

/// Whether an ask is for bytes.
pub fn is_data(kind: AskKind) -> bool
    ensures { result ≡ is_data kind }
{
    match kind {
        AskKind::Fetch => true,
        AskKind::Validate => true,
        AskKind::List => false,
        AskKind::Dehydrate => false,
    }
}

/// Whether an ask is for the entries of a directory.
pub fn is_list(kind: AskKind) -> bool
    ensures { result ≡ is_list kind }
{
    match kind {
        AskKind::List => true,
        _ => false,
    }
}

/// Whether an ask is for consent to a dehydration.
pub fn is_dehydrate(kind: AskKind) -> bool
    ensures { result ≡ is_dehydrate kind }
{
    match kind {
        AskKind::Dehydrate => true,
        _ => false,
    }
}
