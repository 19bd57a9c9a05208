// What a branch is made of: the child of a case that it comes from, or a branch of each operand. Assumes nothing.
ghost use Rattle.normal.specs.Counted.{ChildrenAt, Picks, OperandAt, Splits};

use super::count::count_tree;
use super::{Choice, Chosen, Split};
use tree::skip::skip;

// A branch of a case whose `many` children stand from `at` on: the branches of the first child come first. The last child has those that are
// left.
pub fn choose(s: &[u8], at: usize, left: usize, many: usize, choice: Choice) -> Chosen
    requires { ChildrenAt s.now at left many choice.number choice.of }
    ensures { Picks s.now at many choice.number choice.of result }
{
    let mut next = at;
    let mut rest = choice;
    for _child in 1..many {
        let first = count_tree(s, next, left);
        if rest.number < first.many {
            return Chosen {
                at: next,
                choice: Choice {
                    number: rest.number,
                    of: first.many,
                },
            };
        }
        rest.number -= first.many;
        rest.of -= first.many;
        next = first.next;
    }
    Chosen {
        at: next,
        choice: rest,
    }
}

// A combination of operands, the first of them at `at`: the first one's branch changes slowest. Where they have one, each operand has one
// branch, and nothing is counted.
pub fn split(s: &[u8], at: usize, left: usize, choice: Choice) -> Split
    requires { OperandAt s.now at left choice.number choice.of }
    ensures { Splits s.now at choice.number choice.of result }
{
    if choice.of < 2 {
        return Split {
            first: choice,
            next: skip(s, at, left),
            rest: choice,
        };
    }
    let first = count_tree(s, at, left);
    let among = choice.of / first.many;
    Split {
        first: Choice {
            number: choice.number / among,
            of: first.many,
        },
        next: first.next,
        rest: Choice {
            number: choice.number % among,
            of: among,
        },
    }
}
