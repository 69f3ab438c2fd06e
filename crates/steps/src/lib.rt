// The steps of pages, told from their namers once the walk is through. Each way is followed up to a page
// whose step is known, and laid down behind: once cleared, no entry is written more than twice.
#![tactic(auto)]

ghost use Rattle.std.specs.Prelude.{◌≡◌, ℕ, ◌+◌, ◌-◌, ◌≤◌, ◌<◌, IfSome, length};
ghost use Rattle.dealing.specs.Steps.{step_by, steps_by, Rooted};
ghost use Rattle.steps.specs.Known.{Entering, After, Right};

// The step of page p: so many pages up to one that has no namer, or to one whose step is known.
fn climb(namers: &[u32], steps: &[u32], p: usize) -> u32
    requires { Entering namers.now (length steps.now) steps.now p }
    ensures { result ≡ step_by namers.now (length steps.now) p }
{
    let mut q = p;
    let mut count: u32 = 0;
    loop {
        let up = namers[q - 1];
        if up == 0 {
            return count;
        }
        let known = steps[q - 1];
        if known != 0 {
            return count + known;
        }
        count += 1;
        q = up as usize;
    }
}

// Enters the step of page p, and those of the pages above it up to one whose step is known.
fn lay(namers: &[u32], steps: &mut [u32], p: usize, step: u32)
    requires { Entering namers.now (length steps.old) steps.old p × (step ≡ step_by namers.now (length steps.old) p) }
    ensures { After namers.now (length steps.old) steps.old steps.new × Right namers.now (length steps.old) steps.new p }
{
    let mut q = p;
    let mut left = step;
    while left != 0 {
        if steps[q - 1] != 0 {
            return;
        }
        steps[q - 1] = left;
        left -= 1;
        q = namers[q - 1] as usize;
    }
}

// The step of page p where that of its namer is known. `last` is the step of the page before p.
fn known_above(namers: &[u32], steps: &[u32], p: usize, last: u32) -> Option<u32>
    requires { Entering namers.now (length steps.now) steps.now p × (1 < p → last ≡ step_by namers.now (length steps.now) (p - 1)) }
    ensures { IfSome result (λ step. step ≡ step_by namers.now (length steps.now) p) }
{
    let up = namers[p - 1] as usize;
    if up == 0 {
        return None;
    }
    // As in a chain, mostly: then no entry is waited for that was written just now.
    let above = if up == p - 1 { last } else { steps[up - 1] };
    if above == 0 {
        return None;
    }
    Some(above + 1)
}

// Enters the step of page p, and tells it: at once where that of its namer is known, as it is for most.
fn enter(namers: &[u32], steps: &mut [u32], p: usize, last: u32) -> u32
    requires { Entering namers.now (length steps.old) steps.old p × (1 < p → last ≡ step_by namers.now (length steps.old) (p - 1)) }
    ensures { After namers.now (length steps.old) steps.old steps.new × Right namers.now (length steps.old) steps.new p
        × (result ≡ step_by namers.now (length steps.old) p) }
{
    if let Some(step) = known_above(namers, steps, p, last) {
        steps[p - 1] = step;
        return step;
    }
    let step = climb(namers, steps, p);
    lay(namers, steps, p, step);
    step
}

// Every page's step, one entry a page.
pub fn fill_steps(n: usize, namers: &[u32], steps: &mut [u32])
    requires { Rooted namers.now n × (n < 4294967296) × (length steps.old ≡ n) }
    ensures { steps.new ≡ steps_by namers.now n }
{
    steps.fill(0);
    let mut last = 0;
    for i in 0..n {
        last = enter(namers, steps, i + 1, last);
    }
}
