/// The type of a value (WebAssembly 1.0, section 2.3.1), where there are no floating-point numbers.
#[derive(Clone, Copy, Debug, PartialEq, Eq)]
pub enum ValType {
    I32,
    I64,
}
