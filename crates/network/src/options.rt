// The options of a call, handed on whole from the exported entry to the functions that read them.
ghost use Rattle.std.specs.Prelude.{◌≡◌};

#[derive(Clone, Copy)]
pub struct Options {
    pub rays: u32,
    pub gates: u32,
    pub nyquist: f32,
    pub splits: u32,
    pub skip_between_rays: u32,
    pub skip_along_ray: u32,
    pub centred: u32,
    pub wrap: u32,
}

// What looks go by.
impl From<Options> for edges::edges::Shape {
    ghost use Rattle.network.specs.Inside.Find.{shape_of};

    ghost from_gives = { λ o f. f ≡ shape_of o };

    fn from(o: Options) -> edges::edges::Shape {
        edges::edges::Shape {
            rays: o.rays as usize,
            gates: o.gates as usize,
            skip_between_rays: o.skip_between_rays as usize,
            skip_along_ray: o.skip_along_ray as usize,
            wrap: o.wrap,
        }
    }
}

impl Options {
    // The options of an entry's parameters, in their order.
    pub fn new(
        rays: u32,
        gates: u32,
        nyquist: f32,
        splits: u32,
        skip_between_rays: u32,
        skip_along_ray: u32,
        centred: u32,
        wrap: u32,
    ) -> Options
        ensures { result ≡ record {
          rays = rays;
          gates = gates;
          nyquist = nyquist;
          splits = splits;
          skip_between_rays = skip_between_rays;
          skip_along_ray = skip_along_ray;
          centred = centred;
          wrap = wrap;
        } }
    {
        Options {
            rays,
            gates,
            nyquist,
            splits,
            skip_between_rays,
            skip_along_ray,
            centred,
            wrap,
        }
    }
}
