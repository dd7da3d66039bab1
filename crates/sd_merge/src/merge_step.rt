use sd_gate::Request;

/// What a step of a merge came to.
#[derive(Drop)]
pub enum MergeStep {
    /// The next device call of a plan is asked for.
    Call(Request),
    /// The read of the source's next page is asked for: it has data.
    ReadCall(Request),
    /// The write of the page that was read is asked for: it is the next data page.
    PageCall(Request),
    /// The first call that writes the table is asked for: no page of the source is left.
    TableCall(Request),
    /// The source's next page has only zeros, and was taken.
    Zero,
}
