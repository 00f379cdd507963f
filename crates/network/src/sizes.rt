// The number of gates of each region: NumPy's `bincount` of the labels.
ghost use Rattle.std.specs.Prelude.{◌≡◌, ◌+◌};
ghost use Rattle.lists.specs.Inside.Seg.{seg, put};
ghost use Rattle.lists.specs.Seq.{tabulate};
ghost use Rattle.network.specs.Network.{size_in};
ghost use Rattle.network.specs.Inside.Sizes.{Sizes};

// The sizes of labels 0 to k - 1 in the k words from `at`; the labels are the first n words.
pub fn count_sizes(w: &mut [u32], n: usize, at: usize, k: usize)
    requires { Sizes w.old n at k }
    ensures { w.new ≡ put w.old at (tabulate k (size_in (seg w.old 0 n))) }
{
    memory::words::fill(w, at, k, 0);
    for g in 0..n {
        let l = w[g] as usize;
        let c = w[at + l];
        w[at + l] = c + 1;
    }
}
