// A plateau on two rows: the carrier alone is added to every sample of a part. The Rust's `mix_add_plateau`.
ghost use Rattle.std.specs.Prelude.{◌≡◌, length};
ghost use Rattle.mix.specs.Plateau.{carried, real, imaginary};

use quant::complex::Complex;

pub(crate) fn plateau_rows(i: &mut [f64], q: &mut [f64], carrier: Complex, rotation: Complex)
    requires { length i.old ≡ length q.old }
    ensures i_after { i.new ≡ carried real carrier rotation i.old }
    ensures q_after { q.new ≡ carried imaginary carrier rotation q.old }
{
    let mut z = carrier;
    for k in 0..i.len() {
        i[k] += z.re;
        q[k] += z.im;
        z = z.mul(rotation);
    }
}
