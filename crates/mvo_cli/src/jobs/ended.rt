use mvo_types::Refusal;

/// Whether a refusal ends the transaction that it is answered to.
pub fn ends_transaction(refusal: Refusal) -> bool {
    match refusal {
        Refusal::WriteConflict(_) | Refusal::ValidationFailed(_) | Refusal::DependencyAborted(_) =>
            true,
        _ => false,
    }
}
