//! Laws and examples of the definitions. Their calls do nothing.

ghost use Rattle.std.specs.Prelude.{◌≡◌, ◌↔◌, ◌<◌, List, ℕ, [], ◌∷◌, codes, length};
ghost use Rattle.qs_tree.specs.Names.{AreDistinct};
ghost use Rattle.qs_tree.specs.Trees.{Forest as ForestOf, Tree as LabelledTree, trees, forest, node};
ghost use Rattle.qs_tree.specs.Cells.{cells_of, cells_of_tree, trees_of, tree_of, IsTree, IsForest};
ghost use Rattle.qs_tree.specs.Text.{label_text, name_of, tree_text};
ghost use Rattle.qs_tree.specs.declared.cell.Label.{Label};

/// Law: among distinct texts, two labels are equal exactly where their texts are.
pub fn equal_labels_have_equal_texts()
    ensures { (names : List (List ℕ)) (a b : Label) → AreDistinct names → a.0 < length names → b.0 < length names
        → (a ≡ b) ↔ (name_of names a ≡ name_of names b) }
{}

/// Law: a `Forest` of the definitions is a list of trees in another form.
pub fn forests_are_lists()
    ensures list { (ts : List LabelledTree) → trees (forest ts) ≡ ts }
    ensures forest { (f : ForestOf) → forest (trees f) ≡ f }
{}

/// Law: the cells that a tree or a list of trees has are cells of a tree or of a list of trees, and of this one only.
pub fn cells_give_the_trees_back()
    ensures is_tree { (t : LabelledTree) → IsTree (cells_of_tree t) }
    ensures tree { (t : LabelledTree) → tree_of (cells_of_tree t) ≡ t }
    ensures is_forest { (ts : List LabelledTree) → IsForest (cells_of (forest ts)) }
    ensures trees { (ts : List LabelledTree) → trees_of (cells_of (forest ts)) ≡ ts }
{}

/// Examples: `VP2` and `N'` are written bare, the empty text as `""`, `x y` as `"x y"` and `a"b` as `"a""b"`.
pub fn texts_of_labels()
    ensures bare { label_text (codes "VP2") ≡ codes "VP2" }
    ensures apostrophe { label_text (codes "N'") ≡ codes "N'" }
    ensures empty { label_text [] ≡ 34 ∷ 34 ∷ [] }
    ensures space { label_text (codes "x y") ≡ 34 ∷ 120 ∷ 32 ∷ 121 ∷ 34 ∷ [] }
    ensures quote { label_text (97 ∷ 34 ∷ 98 ∷ []) ≡ 34 ∷ 97 ∷ 34 ∷ 34 ∷ 98 ∷ 34 ∷ [] }
{}

/// Example: over the texts `S`, `NP`, `VP` and `V`, the tree of S with the subtrees NP and VP, of which the second has
/// the subtree V, is written `S(NP,VP(V))`.
pub fn text_of_a_tree()
    ensures { let names = codes "S" ∷ codes "NP" ∷ codes "VP" ∷ codes "V" ∷ [] in
        let label : ℕ → Label = λ n. record { 0 = n } in
        tree_text names (node (label 0) (node (label 1) [] ∷ node (label 2) (node (label 3) [] ∷ []) ∷ []))
        ≡ codes "S(NP,VP(V))" }
{}
