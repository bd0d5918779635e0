//! Laws of graphs of chains, over their definitions alone.

ghost use Rattle.std.specs.Prelude.{◌≡◌, ◌⊎◌, ℕ, ◌+◌, ◌<◌, ◌≤◌, List, [], ◌++◌, length, map};
ghost use Rattle.qs_lex.specs.declared.token.Token.{Token};
ghost use Rattle.qs_lex.specs.Limits.{most_node_number};
ghost use Rattle.qs_lex.specs.Tokens.{Reads, AreTokensOf};
ghost use Rattle.qs_tree.specs.Lists.{◌∈◌};
ghost use Rattle.qs_tree.specs.Trees.{Tree};
ghost use Rattle.qs_tree.specs.Text.{IsNamed};
ghost use Rattle.qs_graph.specs.Graphs.{QGraph, IsValid};
ghost use Rattle.qs_ruletext.specs.Written.{AreOnOneLine};
ghost use Rattle.qs_graphtext.specs.WrittenChains.{WrittenChain};
ghost use Rattle.qs_graphtext.specs.GraphOfChains.{IsWhole, trees_in, graph_of, AreFew, AreRefused};
ghost use Rattle.qs_graphtext.specs.declared.chain_end.ChainEnd.{ChainEnd};
ghost use Rattle.qs_graphtext.specs.Texts.{AreArcsNamed, graph_text};
ghost use Rattle.qs_graphtext.specs.ChainsOfArcs.{ReadsBack};

/// Chains, of which there is one at least, that are whole make a valid graph of at most 65,536 arcs, or they are
/// refused for a cause other than want of memory.
pub fn chains_make_a_graph_or_are_refused()
    ensures { (chains : List WrittenChain) → 0 < length chains
        → ((chain : WrittenChain) → chain ∈ chains → IsWhole chain)
        → (AreFew chains × IsValid (graph_of chains))
        ⊎ ((end : ChainEnd) × (end ≡ ChainEnd.Memory → ⊥) × AreRefused chains end) }
{}

/// The trees on the arcs of a graph of chains are the trees of the chains, in their order.
pub fn trees_stay()
    ensures { (chains : List WrittenChain) → map (λ arc. arc.tree) (graph_of chains).arcs ≡ trees_in chains }
{}

/// Where each label in the trees of chains is one of the first n, so is each label of their graph.
pub fn names_stay()
    ensures { (n : ℕ) (chains : List WrittenChain) → ((chain : WrittenChain) → chain ∈ chains → (tree : Tree)
        → tree ∈ chain.trees → IsNamed n tree) → AreArcsNamed n (graph_of chains).arcs }
{}

/// What is written of a valid graph is read as chains that make this graph, one for each arc: alone, and between other
/// things, where the tokens behind it are read. Its labels are named, no name has the end of a line, and there are at
/// most 999,999,999 nodes, so that each has a mark.
pub fn what_is_written_is_read()
    ensures within { (names : List (List ℕ)) (before behind : List ℕ) (G : QGraph) (rest : List Token) (next : ℕ)
        → AreOnOneLine names → IsValid G → G.nodes ≤ most_node_number → AreArcsNamed (length names) G.arcs
        → Reads (before ++ (graph_text names G ++ behind)) (length before + length (graph_text names G)) rest next
        → (ts : List Token) × Reads (before ++ (graph_text names G ++ behind)) (length before) ts next
        × ReadsBack names (before ++ (graph_text names G ++ behind)) ts G rest }
    ensures alone { (names : List (List ℕ)) (G : QGraph) → AreOnOneLine names
        → IsValid G → G.nodes ≤ most_node_number → AreArcsNamed (length names) G.arcs
        → (ts : List Token) × AreTokensOf (graph_text names G) ts × ReadsBack names (graph_text names G) ts G [] }
{}
