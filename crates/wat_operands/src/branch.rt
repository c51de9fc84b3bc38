//! The operand of `br_table`.

ghost use Rattle.std.specs.Prelude.{◌≡◌, ◌≢◌, [], ◌∷◌, ◌++◌};
ghost use Rattle.wat_types.specs.Prelude.{Copies, owning};
ghost use Rattle.wat_operands.specs.Branch.{BrTableModel, br_table_view, heapless_br_table};
ghost use Rattle.wat_operands.specs.BranchTable.{br_table};

use wat_tokens::repeat::while_begun;
use wat_tokens::{Fault, Index, Parse, Parser, Result};

/// The labels of a `br_table`, with indices of type `I` (WebAssembly Core Specification, Text
/// Format, Instructions, "Control Instructions").
#[derive(Debug, Drop)]
pub struct BrTableIndicesOf<I> {
    /// The labels for the operand values 0, 1, 2 ...
    pub labels: Vec<I>,
    /// The label for every greater operand value.
    pub default: I,
}

/// The labels of a `br_table`.
pub type BrTableIndices<'a> = BrTableIndicesOf<Index<'a>>;

impl<'a> BrTableIndices<'a> {
    /// Returns a copy. Returns Memory only if `labels` isn't empty.
    pub fn clone(&self) -> Result<BrTableIndices<'a>>
        ensures copies { Copies (λ x y. (y.labels.items ≡ x.labels.items) × (y.default ≡ x.default))
            (owning br_table_view heapless_br_table) result self.now }
    {
        let mut labels = Vec::new(*self.labels.allocator());
        labels.extend_from_slice(&self.labels)?;
        Ok(BrTableIndices {
            labels,
            default: self.default,
        })
    }
}

/// Removes the last index, and returns it.
fn take_last<'a>(indices: &mut Vec<Index<'a>>) -> Index<'a>
    requires { indices.old.items ≢ [] }
    ensures { indices.old.items ≡ indices.new.items ++ result ∷ [] }
{
    let last = indices.len() - 1;
    let index = indices[last];
    indices.truncate(last);
    index
}

/// One or more indices. The last index is `default`, and the others are `labels`.
impl<'a> Parse<'a> for BrTableIndices<'a> {
    ghost View = { BrTableModel };

    ghost view = { owning br_table_view heapless_br_table };

    ghost grammar = { br_table };

    fn parse(parser: &mut Parser<'a>) -> Result<Self> {
        let first = Index::parse(parser)?;
        let mut labels = Vec::new(parser.alloc());
        if !parser.peek::<Index>() {
            return Ok(BrTableIndices {
                labels,
                default: first,
            });
        }
        labels.push(first)?;
        while_begun::<Index>(parser, &mut labels)?;
        let default = take_last(&mut labels);
        Ok(BrTableIndices { labels, default })
    }
}
