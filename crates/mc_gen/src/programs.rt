// The programs that come of numbers, and the definitions of all of them.
ghost use Rattle.std.specs.Prelude.{◌≡◌, ◌++◌, IfOk, OnOk, map, option_map};
ghost use Rattle.mc_gen.specs.Draws.{after, draws};
ghost use Rattle.mc_gen.specs.Programs.{IsProgramOf};
ghost use Rattle.mc_gen.specs.Texts.{back_text, block_text, blocks_text, definitions_text, front_text, kind_of, program_text};

use crate::draws::{drawn, next_of};
use crate::{BlockKind, Made};
use mc_base::NoMemory;
use mc_base::text::print_number;
use std::alloc::Global;

// What stands before the blocks of a program, and behind them.
const FRONT: &[u8] =
    b"struct node { int data; struct node *next; };\nstruct t { struct t *l; struct t *r; };\nint main() {\n";

const BACK: &[u8] = b"return 0;\n}\n";

/// The definitions of all programs that are made: lists and trees.
pub fn definitions() -> &'static [u8]
    ensures { result.now ≡ definitions_text }
{
    b"def list(this) { rule { this = 0; } rule { this -> node { data: _, next: n }; list(n); } }\n\
      def tree(this) { rule { this = 0; } rule { this -> t { l: x, r: y }; tree(x); tree(y); } }\n"
}

// A block up to the number in it, or whole where it has none.
#[tactic(auto, unfolding(crate::specs::Texts::front_text))]
fn front(kind: BlockKind) -> &'static [u8]
    ensures { result.now ≡ front_text kind }
{
    match kind {
        BlockKind::Walk => {
            b"{ struct node *l; struct node *c; assume_shape(list, l); c = l; while (c) c = c->next; }"
        }
        BlockKind::Build => {
            b"{ struct node *l = NULL; while (input() != 0) { struct node *c = malloc(sizeof(struct node)); \
              if (c == NULL) break; c->data = "
        }
        BlockKind::Turns => {
            b"{ int i = 0; while (i < 10) { struct node *p = malloc(sizeof(struct node)); \
              if (p != NULL) { p->data = i; free(p); } i++; } }"
        }
        BlockKind::Unchecked => b"{ struct node *p = malloc(sizeof(struct node)); p->data = ",
        BlockKind::Descend => b"{ struct t *a; assume_shape(tree, a); while (a) a = a->l; }",
    }
}

// What stands behind that number.
#[tactic(auto, unfolding(crate::specs::Texts::back_text))]
fn back(kind: BlockKind) -> Option<&'static [u8]>
    ensures { option_map (λ text. text.now) result ≡ back_text kind }
{
    match kind {
        BlockKind::Walk => None,
        BlockKind::Build => Some(b"; c->next = l; l = c; } assert_shape(list, l); }"),
        BlockKind::Turns => None,
        BlockKind::Unchecked => Some(b"; free(p); }"),
        BlockKind::Descend => None,
    }
}

// Adds the block of a kind which is the one of this number in its program.
fn print_block(
    alloc: Global,
    out: &mut Vec<u8>,
    kind: BlockKind,
    number: u64,
) -> Result<(), NoMemory>
    ensures { OnOk result (out.new.items ≡ out.old.items ++ block_text kind number) }
{
    out.extend_from_slice(front(kind))?;
    match back(kind) {
        None => Ok(()),
        Some(text) => {
            print_number(alloc, out, number)?;
            out.extend_from_slice(text)
        }
    }
}

// Adds the blocks of these kinds, a line each.
fn print_blocks(alloc: Global, out: &mut Vec<u8>, kinds: &[BlockKind]) -> Result<(), NoMemory>
    ensures { OnOk result (out.new.items ≡ out.old.items ++ blocks_text 1 kinds.now) }
{
    for (i, kind) in kinds.iter().enumerate() {
        print_block(alloc, out, *kind, i as u64 + 1)?;
        out.push(b'\n')?;
    }
    Ok(())
}

// The program whose blocks are of these kinds.
fn text_of(alloc: Global, kinds: &[BlockKind]) -> Result<Vec<u8>, NoMemory>
    ensures { IfOk result (λ text. text.items ≡ program_text kinds.now) }
{
    let mut text = Vec::new(alloc);
    text.extend_from_slice(FRONT)?;
    print_blocks(alloc, &mut text, kinds)?;
    text.extend_from_slice(BACK)?;
    Ok(text)
}

// Draws so many kinds, from the number after x on. What is left is the number that was drawn last.
fn draw_kinds(alloc: Global, x: &mut u32, count: u32) -> Result<Vec<BlockKind>, NoMemory>
    ensures kinds { IfOk result (λ kinds. kinds.items ≡ map kind_of (draws count 5 x.old)) }
    ensures left { IfOk result (λ _. x.new ≡ after count x.old) }
{
    let mut kinds = Vec::new(alloc);
    for _ in 0..count {
        *x = next_of(*x);
        kinds.push(BlockKind::of_number(drawn(*x, 5)))?;
    }
    Ok(kinds)
}

/// The program that comes of a number: it has from one to four blocks, whose kinds are drawn.
pub fn program_of(alloc: Global, x: u32) -> Result<Made, NoMemory>
    ensures { IfOk result (IsProgramOf x) }
{
    let mut next = next_of(x);
    let count = 1 + drawn(next, 4);
    let kinds = draw_kinds(alloc, &mut next, count)?;
    let text = text_of(alloc, &kinds)?;
    Ok(Made { text, kinds, next })
}
