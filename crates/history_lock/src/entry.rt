//! What one step leaves in the history.

use std::collections::LinkedList;

/// One step: the number of the seat that asked, what it asked, and what it was answered, in order. A history is a list of
/// these. No value of it is made.
pub struct Entry<Request, Answer> {
    pub seat: u32,
    pub request: Request,
    pub answers: LinkedList<Answer>,
}
