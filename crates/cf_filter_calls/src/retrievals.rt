//! Bytes that are here, for a provider that is to vouch for them.

ghost use Rattle.std.specs.Prelude.{◌≡◌, ◌+◌, ◌&&◌, List, nat_le};
ghost use Rattle.std.specs.List.{list_any};
ghost use Rattle.cf_base.specs.declared.answers.AuxRecord.{AuxRecord};
ghost use Rattle.cf_base.specs.declared.ids.Key.{Key};
ghost use Rattle.cf_base.specs.declared.operations.Operation.TheVariants as operation;
ghost use Rattle.cf_filter_calls.specs.Operating.{IsLiveFor, holds_all, is_whole_in, retrieved};
ghost use Rattle.cf_model.specs.Books.{Book};
ghost use Rattle.cf_model.specs.Items.{Item};
ghost use Rattle.cf_model.specs.Operations.{retrieve};
ghost use Rattle.cf_model.specs.Requests.{Live};
ghost use Rattle.cf_filter_steps.specs.Answering.{Answers, Any, Reads};
ghost use Rattle.cf_filter_steps.specs.Putting.{IsHere};
ghost use Rattle.cf_table.specs.Means.{Means};

use cf_ask_rule::Act;
use cf_base::{Ask, CallError, Code, ItemId, Shown, Span};
use cf_filter_steps::{Steps, settle};
use cf_table::Row;

/// No blocks.
const NO_SPAN: Span = Span { start: 0, len: 0 };

fn covers(run: Span, span: Span) -> bool
    ensures { result ≡ (nat_le run.start span.start && nat_le (span.start + span.len) (run.start + run.len)) }
{
    run.start <= span.start
        && span.start - run.start <= run.len
        && span.len <= run.len - (span.start - run.start)
}

fn any_covers(runs: &[Span], span: Span) -> bool
    ensures { result ≡ list_any (λ r. nat_le r.start span.start && nat_le (span.start + span.len) (r.start + r.len)) runs.now }
{
    runs.iter().any(|run| covers(*run, span))
}

// Whether each byte of a span is here. As runs are maximal, one of them has all.
fn is_whole_in(row: &Row, span: Span) -> bool
    ensures { (i : Item) → Means row.now i → result ≡ is_whole_in span i }
{
    if span.len == 0 {
        return true;
    }
    any_covers(row.here.runs(), span)
}

fn holds_all<S: Steps>(s: &S, id: ItemId, span: Span) -> bool
    ensures { Reads S.sense Any (holds_all id span) s.now result }
{
    match s.rows().get(id) {
        Some(row) => is_whole_in(row, span),
        None => span.len == 0,
    }
}

fn retrieve_now<S: Steps>(s: &mut S, ask: &Ask, span: Span) -> Result<Shown, CallError>
    ensures { Answers S.sense (IsHere ask.now.item span) (retrieved ask.now span) s.old result s.new }
{
    let bytes = s.retrieve(ask.item, span)?;
    let act = Act::Leaves {
        key: ask.key,
        blocks: NO_SPAN,
    };
    settle(s, ask.item, act)?;
    Ok(Shown::Retrieved(bytes))
}

/// The bytes of a span of a validate ask. Refused as OutsideAsk where one of them is not here.
pub(crate) fn retrieve<S: Steps>(s: &mut S, ask: &Ask, span: Span) -> Result<Shown, CallError>
    ensures { (key : Key) (f : Book → Book) (records : List AuxRecord) (a : Live) → Answers S.sense (IsLiveFor f (operation.Retrieve key span) ask.now records a) (retrieve a span) s.old result s.new }
{
    if holds_all(s, ask.item, span) {
        retrieve_now(s, ask, span)
    } else {
        Ok(Shown::Refused(Code::OutsideAsk))
    }
}
