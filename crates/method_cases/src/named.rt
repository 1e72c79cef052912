use methods::{Collector, Method, TokenTree};

// A counting method, with the word that the output calls it by.
pub trait Named: Method + Drop {
    const WORD: &'static str;
}

impl Named for Collector {
    const WORD: &'static str = "box";
}

impl Named for TokenTree {
    const WORD: &'static str = "tree";
}
