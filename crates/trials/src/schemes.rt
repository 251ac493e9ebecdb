// The schemes, as the heap and as the model know them.
use model::Rules;
use scheme::{Mask, Prefix, Scheme};

/// A scheme that the model knows too.
pub trait Modelled: Scheme + Copy + Drop {
    const NAME: &'static str;

    const RULES: Rules;
}

impl Modelled for Prefix {
    const NAME: &'static str = "PREFIX";

    const RULES: Rules = Rules::Prefix;
}

impl Modelled for Mask {
    const NAME: &'static str = "MASK";

    const RULES: Rules = Rules::Mask;
}
