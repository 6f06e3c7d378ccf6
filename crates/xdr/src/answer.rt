// What a reader hands over. A reader answers `Result<Took<X>, Refusal>`, and a writer, which hands over the place after what it wrote,
// `Result<usize, Refusal>`.

// A value, the place after it, and whether its bytes were in published form.
#[derive(Clone, Copy)]
pub struct Took<T> {
    pub value: T,
    pub next: usize,
    pub plain: bool,
}
