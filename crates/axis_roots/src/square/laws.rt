//! What extensions of squares and their headers do.

ghost use Rattle.std.specs.Prelude.{◌≡◌, ◌<◌, ◌*◌, ℕ, List, Some, None, IsSome, length, map, true, false};
ghost use Rattle.namespace_id.specs.declared.cells.Axis.{Axis};
ghost use Rattle.namespace_id.specs.declared.shares.Share.{Share};
ghost use Rattle.namespace_id.specs.Shares.{AreShares, name_in};
ghost use Rattle.namespace_id.specs.Cells.{is_width};
ghost use Rattle.nmt_tree.specs.Roots.{halvings, is_ordered};
ghost use Rattle.nmt_proofs.specs.Clashes.{AreLeaves};
ghost use Rattle.data_header.specs.Headers.{Roots, AreRoots, root_of};
ghost use Rattle.square_layout.specs.Blocks.{SquareShares, IsSquare};
ghost use Rattle.axis_roots.specs.Lines.{line_names, line_strict_root};
ghost use Rattle.axis_roots.specs.Trees.{AxisTrees, axis_stored, trees_of_grid, tree_at};
ghost use Rattle.axis_roots.specs.Grids.{Extends, IsHeaderOf, axis_shares, is_ordered_axis, header_of_grid};

/// What is proved of the extension of a square and of its header.
pub fn grid_laws()
    // Each square has an extension, and only one.
    ensures extension { (square : SquareShares) → IsSquare square → AreShares square.shares →
        (grid : List Share) × Extends square.k square.shares grid }
    ensures one_extension { (square : SquareShares) (grid other : List Share) → IsSquare square →
        Extends square.k square.shares grid → Extends square.k square.shares other →
        grid ≡ other }

    // A square has at most one header: that of its extension, whichever way it was made.
    ensures one_header { (square : SquareShares) (header other : Roots) →
        IsHeaderOf header square → IsHeaderOf other square → header ≡ other }
    ensures header { (square : SquareShares) (grid : List Share) (header : Roots) →
        IsSquare square → Extends square.k square.shares grid →
        header_of_grid square.k grid ≡ Some header → IsHeaderOf header square }
    ensures no_header { (square : SquareShares) (grid : List Share) (header : Roots) →
        Extends square.k square.shares grid → header_of_grid square.k grid ≡ None →
        IsHeaderOf header square → ⊥ }

    // It has the roots of a header.
    ensures are_roots { (square : SquareShares) (header : Roots) →
        IsHeaderOf header square → AreRoots header }

    // The header of a grid has the strict root of each axis, and a header of its width that has
    // these is the grid's. A grid has none only where the namespaces of an axis fall.
    ensures strict { (k : ℕ) (shares : List Share) (header : Roots) →
        header_of_grid k shares ≡ Some header → (axis : Axis) (index : ℕ) → index < 2 * k →
        line_strict_root k axis index (axis_shares k shares axis index)
        ≡ Some (root_of header axis index) }
    ensures by_strict { (k : ℕ) (shares : List Share) (header : Roots) → AreRoots header →
        header.k ≡ k → ((axis : Axis) (index : ℕ) → index < 2 * k →
        line_strict_root k axis index (axis_shares k shares axis index)
        ≡ Some (root_of header axis index)) → header_of_grid k shares ≡ Some header }
    ensures falling { (k : ℕ) (shares : List Share) → header_of_grid k shares ≡ None →
        (axis : Axis) × (index : ℕ) × (index < 2 * k) ×
        (is_ordered_axis k shares axis index ≡ false) }

    // The trees of a grid are those over the leaves of each row and each column, of which none
    // falls.
    ensures trees { (k : ℕ) (shares : List Share) (trees : AxisTrees) →
        trees_of_grid k shares ≡ Some trees → (axis : Axis) (index : ℕ) → index < 2 * k →
        (tree_at trees axis index ≡ axis_stored k shares axis index)
        × (is_ordered_axis k shares axis index ≡ true) }

    // A line of 2k shares, whether it stands in a grid or not, has 2k leaves.
    ensures line { (k : ℕ) (axis : Axis) (index : ℕ) (line : List Share) → is_width k ≡ true →
        length line ≡ 2 * k → AreShares line →
        AreLeaves (halvings (2 * k)) (line_names k axis index line) line }

    // A square whose shares never fall in their namespaces, row by row, has a header.
    ensures laid { (square : SquareShares) (grid : List Share) → IsSquare square →
        Extends square.k square.shares grid → is_ordered (map name_in square.shares) ≡ true →
        IsSome (header_of_grid square.k grid) }
{}
