// What holds of regions, their parts and their changes. Each law is what a function with no body ensures.
ghost use Rattle.std.specs.Prelude.{◌≡◌, ◌∷◌, [], Some, None};
ghost use Rattle.std.specs.FinMap as map;
ghost use Rattle.mc_flow.specs.Heap.Heap.{region_of, HasAddresses};
ghost use Rattle.mc_flow.specs.Heap.Parts.{Split, IsEmpty, Star, StarAt, Changes};
ghost use Rattle.mc_flow.specs.Heap.PartLaws.{SplitCommutes, SplitRegroupsLeft, SplitRegroupsRight, SplitDropsEmpty};
ghost use Rattle.mc_flow.specs.Heap.PartLaws.{SplitAddsEmpty, SplitKeepsAddresses, EmptyHeapIsEmpty, RegionTellsHeap};
ghost use Rattle.mc_flow.specs.Heap.PartLaws.{InsertChanges, RemoveChanges, InsertKeepsAddresses, RemoveKeepsAddresses};
ghost use Rattle.mc_flow.specs.Heap.PartLaws.{CellIsRead, CellIsAdded, CellIsReplaced, CellIsRemoved};
ghost use Rattle.mc_flow.specs.Heap.Adding.{AreFree, BlocksAreAdded, BlocksKeepAddresses};
ghost use Rattle.mc_flow.specs.Heap.Instances.{block_at, one_block, two_blocks, two_blocks_turned, nowhere, only_at, IsBlockAt, IsNothingAt};

/// Parts may be named and grouped in any order, and an empty part plays no role.
pub fn parts_regroup()
    ensures commutes { SplitCommutes }
    ensures left { SplitRegroupsLeft }
    ensures right { SplitRegroupsRight }
    ensures drops_empty { SplitDropsEmpty }
    ensures adds_empty { SplitAddsEmpty }
    ensures keeps_addresses { SplitKeepsAddresses }
{}

/// How a finite map's region changes.
pub fn heaps_change_one_address()
    ensures empty { EmptyHeapIsEmpty }
    ensures tells { RegionTellsHeap }
    ensures insert { InsertChanges }
    ensures remove { RemoveChanges }
    ensures insert_keeps { InsertKeepsAddresses }
    ensures remove_keeps { RemoveKeepsAddresses }
{}

/// A change of one block is a change of its part, and the other parts stay.
pub fn changes_are_local()
    ensures read { CellIsRead }
    ensures added { CellIsAdded }
    ensures replaced { CellIsReplaced }
    ensures removed { CellIsRemoved }
{}

/// Blocks at free addresses come into a heap as a part more.
pub fn blocks_come_together()
    ensures added { BlocksAreAdded }
    ensures keeps_addresses { BlocksKeepAddresses }
{}

/// A heap of two blocks meets the premises of each of these laws.
pub fn two_blocks_are_parts()
    ensures split { Split (region_of two_blocks) (only_at 7) (only_at 9) }
    ensures inner { Split (only_at 9) nowhere (only_at 9) }
    ensures empty { IsEmpty nowhere }
    ensures first { IsBlockAt 7 (only_at 7) }
    ensures second { IsBlockAt 9 (only_at 9) }
    ensures each { Star IsBlockAt (7 ∷ 9 ∷ []) (region_of two_blocks) }
    ensures each_but_one { StarAt IsBlockAt IsNothingAt 1 (7 ∷ 8 ∷ 9 ∷ []) (region_of two_blocks) }
    ensures free { region_of one_block 9 ≡ None }
    ensures added { Changes (region_of one_block) (region_of two_blocks) 9 (Some (block_at 9)) }
    ensures replaced { Changes (region_of two_blocks) (region_of (map.insert two_blocks 9 (block_at 7))) 9 (Some (block_at 7)) }
    ensures removed { Changes (region_of two_blocks) (only_at 7) 9 None }
    ensures addresses { HasAddresses one_block }
    ensures come { AreFree one_block ((9, block_at 9) ∷ []) }
    ensures turned { region_of two_blocks ≡ region_of two_blocks_turned }
{}
