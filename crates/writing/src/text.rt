// Hints as text.
ghost use Rattle.std.specs.Prelude.{Some};
ghost use Rattle.writing.specs.Texts.{hints_text};

use hints::Hints;
use std::fmt;

// The six hints by name, in their order. A wrapper, since the hints belong to a crate that writes no text.
#[derive(Clone, Copy)]
pub(crate) struct HintsLine(pub(crate) Hints);

impl fmt::Display for HintsLine {
    ghost output = { λ line. Some (hints_text line.0) };

    fn fmt<W: fmt::Write>(&self, f: &mut fmt::Formatter<W>) -> fmt::Result {
        let Hints {
            main,
            rest,
            lift,
            keep,
            drop,
            up,
        } = self.0;
        write!(
            f,
            "main {main}, rest {rest}, lift {lift}, keep {keep}, drop {drop}, up {up}"
        )
    }
}
