// The mutations of one site, marked on their rows: such a row has a mutation of its own, and its state is told.
ghost use Rattle.std.specs.Prelude.{◌≡◌, ◌<◌, length, set};
ghost use Rattle.meaning.specs.Columns.{mutations_in};
ghost use Rattle.missing.specs.Marks.{Naming};
ghost use Rattle.carrying.specs.Spans.{InSpan};
ghost use Rattle.carrying.specs.Stamped.{Marked};

use meaning::columns::MutationColumns;

// Stamps row v twice and leaves a state there, over that of an earlier mutation.
fn leave_state(own: &mut [u32], told: &mut [u32], state: &mut [u8], v: u32, t: u32, d: u8)
    requires { (v < length own.old) × (v < length told.old) × (v < length state.old) }
    ensures { (own.new ≡ set own.old v t) ×
        (told.new ≡ set told.old v t) ×
        (state.new ≡ set state.old v d) }
{
    own[v as usize] = t;
    told[v as usize] = t;
    state[v as usize] = d;
}

// Goes over the mutation rows among which those of site row i lie: each node with one there is stamped, and its state is that of its
// last such row.
pub fn mark_site(
    mutations: MutationColumns,
    i: u32,
    from: u32,
    to: u32,
    t: u32,
    own: &mut [u32],
    told: &mut [u32],
    state: &mut [u8],
)
    requires { Naming (mutations_in mutations) (length own.old) ×
        Naming (mutations_in mutations) (length told.old) ×
        Naming (mutations_in mutations) (length state.old) ×
        InSpan mutations.site.now i from to }
    ensures { Marked
        (mutations_in mutations.entry) i t own.old told.old state.old own.new told.new state.new }
{
    for j in from as usize..to as usize {
        if mutations.site[j] == i {
            leave_state(own, told, state, mutations.node[j], t, mutations.derived[j]);
        }
    }
}
