//! A broken rule.
ghost use Rattle.std.specs.Prelude.{◌≡◌, None, IfOk, codes};

use crate::memory::Memory;
use crate::rule::Rule;
use crate::text::Text;
use std::alloc::Global;

/// Where a rule is broken: the path of a file, a member of its class, spelled as its name and
/// descriptor, and a line, a byte or an instruction.
#[derive(Debug, Drop)]
pub struct Place {
    pub file: Text,
    pub member: Option<Text>,
    pub index: Option<u32>,
}

/// A rule that a folder breaks, where, what was wanted there and what was found.
#[derive(Debug, Drop)]
pub struct Broken {
    pub rule: Rule,
    pub place: Place,
    pub wanted: Text,
    pub found: Text,
}

impl Broken {
    /// A rule that is broken at a file, where nothing is said of what was wanted and found.
    pub fn at_file(alloc: Global, rule: Rule, path: &str) -> Result<Broken, Memory>
        ensures { IfOk result (λ broken. broken ≡ record {
          rule = rule;
          place = record { file = path.now; member = None; index = None };
          wanted = codes "-";
          found = codes "-";
        }) }
    {
        Ok(Broken {
            rule,
            place: Place {
                file: Text::from_str(alloc, path)?,
                member: None,
                index: None,
            },
            wanted: Text::from_str(alloc, "-")?,
            found: Text::from_str(alloc, "-")?,
        })
    }
}
