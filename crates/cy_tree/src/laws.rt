ghost use Rattle.std.specs.Prelude.{◌≡◌, ◌≤◌, ◌<◌, ◌+◌, ℕ, List, Some, slice_get, suc, map, take};
ghost use Rattle.cy_tree.specs.Nodes.{Numbered, Tree, children, nodes, total};

/// A node counts for one more than the nodes inside it. A law; it does nothing.
pub fn nodes_count_themselves_and_those_inside()
    ensures count { (t : Tree) → nodes t ≡ 1 + total (map nodes (children t)) }
    ensures some { (t : Tree) → 1 ≤ nodes t }
{}

/// A node's children follow it in text order, each behind the nodes of those before it. A law; it does nothing.
pub fn children_follow_in_order()
    ensures { (root : Tree) (n : ℕ) (t : Tree) (place : ℕ) (c : Tree) → Numbered root n t
        → slice_get (children t) place ≡ Some c
        → Numbered root (suc (n + total (map nodes (take place (children t))))) c }
{}

/// Each number below the count is that of one node, and no node has another. A law; it does nothing.
pub fn a_number_is_that_of_one_node()
    ensures exists { (root : Tree) (n : ℕ) → n < nodes root → (t : Tree) × Numbered root n t }
    ensures unique { (root : Tree) (n : ℕ) (t u : Tree) → Numbered root n t → Numbered root n u → t ≡ u }
    ensures within { (root : Tree) (n : ℕ) (t : Tree) → Numbered root n t → n + nodes t ≤ nodes root }
{}
