ghost use Rattle.mvo_theory.specs.CauseLaws.{TraceJustifies, OpensCounted, EachCallCounts};

/// The laws of the causes. In each state that calls lead to, a call is refused with a cause that
/// the trace shows to stand, and is accepted only where it shows none: whose first write stands in
/// the way, by whose end the next entry differs, who is depended on and was aborted, and how many
/// transactions, timestamps, keys and entries there are. The call does nothing.
pub fn laws_of_causes()
    ensures justified { TraceJustifies }
    ensures opens { OpensCounted }
    ensures counts { EachCallCounts }
{}
