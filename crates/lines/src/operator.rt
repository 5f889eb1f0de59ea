ghost use Rattle.std.specs.Prelude.{◌≡◌, MatchResult};
ghost use Rattle.lines.specs.Operators.{Unnamed, byte_of, opposites, strict};

// The five comparisons that a line can make.
#[derive(Clone, Copy, Debug, PartialEq, Eq)]
pub enum Operator {
    Before,
    NotAfter,
    With,
    NotBefore,
    After,
}

// The byte names no operator.
#[derive(Clone, Copy, Debug, PartialEq, Eq)]
pub struct NoOperator;

impl TryFrom<u8> for Operator {
    type Error = NoOperator;

    ghost try_from_gives = { λ byte r. MatchResult r (λ op. byte_of op ≡ byte) (λ _. Unnamed byte) };

    fn try_from(byte: u8) -> Result<Operator, NoOperator> {
        match byte {
            0x3C => Ok(Operator::Before),
            0x6C => Ok(Operator::NotAfter),
            0x3D => Ok(Operator::With),
            0x67 => Ok(Operator::NotBefore),
            0x3E => Ok(Operator::After),
            _ => Err(NoOperator),
        }
    }
}

impl Operator {
    // The opposites of the operator: the comparison that holds exactly where this one does not, or for "with" the two, before and
    // after, of which one does. `opposite_laws` has the law.
    pub fn opposites(self) -> (Operator, Option<Operator>)
        ensures { result ≡ opposites self }
    {
        match self {
            Operator::Before => (Operator::NotBefore, None),
            Operator::NotAfter => (Operator::After, None),
            Operator::With => (Operator::Before, Some(Operator::After)),
            Operator::NotBefore => (Operator::Before, None),
            Operator::After => (Operator::NotAfter, None),
        }
    }

    // Whether the comparison is between two times that differ.
    pub(crate) fn is_strict(self) -> bool
        ensures { result ≡ strict self }
    {
        matches!(self, Operator::Before | Operator::After)
    }
}
