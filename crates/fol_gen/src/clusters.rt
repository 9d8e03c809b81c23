//! The lines of the script.

ghost use Rattle.std.specs.Prelude.{◌≡◌, ◌++◌, ◌<◌, ◌≤◌, flat_map, map, IfOk, string_bytes};
ghost use Rattle.fol_model.specs.LineWords.{line};
ghost use Rattle.fol_model.specs.Universe.{numbers_below};
ghost use Rattle.fol_gen.specs.MadeTexts.{cluster_lines, load_line, post_line, run_lines, text_of, unload_line};

use std::alloc::AllocError;

/// Clusters are so many chunks apart.
const STRIDE: u32 = 12;

/// Puts the lines of the first `n` clusters.
#[tactic(auto, unfolding(fol_model::specs::Universe::numbers_below))]
pub fn put_clusters(out: &mut String, n: u32) -> Result<(), AllocError>
    requires { n ≤ 500 }
    ensures { IfOk result (λ _. string_bytes out.new
        ≡ string_bytes out.old ++ text_of (flat_map cluster_lines (numbers_below n))) }
{
    for cluster in 0..n {
        put_cluster(out, cluster)?;
    }
    Ok(())
}

/// Puts the lines of a cluster: three tickets and four tasks.
fn put_cluster(out: &mut String, cluster: u32) -> Result<(), AllocError>
    requires { cluster < 500 }
    ensures { IfOk result (λ _. string_bytes out.new
        ≡ string_bytes out.old ++ text_of (cluster_lines cluster)) }
{
    let first = STRIDE * cluster;
    put_load(out, first)?;
    put_load(out, first + 3)?;
    put_load(out, first + 6)?;
    put_posts(out, cluster)
}

/// Puts the line of a ticket.
fn put_load(out: &mut String, chunk: u32) -> Result<(), AllocError>
    ensures { IfOk result (λ _. string_bytes out.new
        ≡ string_bytes out.old ++ line (load_line chunk)) }
{
    write!(out, "load {chunk} 0\n")
}

/// Puts the lines of the tasks of a cluster.
#[tactic(auto, unfolding(fol_model::specs::Universe::numbers_below))]
fn put_posts(out: &mut String, cluster: u32) -> Result<(), AllocError>
    requires { cluster < 500 }
    ensures { IfOk result (λ _. string_bytes out.new
        ≡ string_bytes out.old ++ text_of (map (post_line cluster) (numbers_below 4))) }
{
    for place in 0u32..4 {
        put_post(out, cluster, place)?;
    }
    Ok(())
}

/// Puts the line of a task, which gives a block of the cluster's first chunk a number.
fn put_post(out: &mut String, cluster: u32, place: u32) -> Result<(), AllocError>
    requires in_range { cluster < 500 }
    requires in_chunk { place < 4 }
    ensures { IfOk result (λ _. string_bytes out.new
        ≡ string_bytes out.old ++ line (post_line cluster place)) }
{
    let chunk = STRIDE * cluster;
    let delay = place + 1;
    let x = 16 * STRIDE * cluster + place;
    let id = 1 + (4 * cluster + place) % 60_000;
    write!(out, "post {chunk} 0 {delay} set {x} 64 0 {id}\n")
}

/// Puts the lines that take back the ticket in the middle of each of the first `n` clusters.
#[tactic(auto, unfolding(fol_model::specs::Universe::numbers_below))]
pub fn put_unloads(out: &mut String, n: u32) -> Result<(), AllocError>
    requires { n ≤ 500 }
    ensures { IfOk result (λ _. string_bytes out.new
        ≡ string_bytes out.old ++ text_of (map unload_line (numbers_below n))) }
{
    for cluster in 0..n {
        let middle = STRIDE * cluster + 3;
        write!(out, "unload {middle} 0\n")?;
    }
    Ok(())
}

/// Puts the lines of a phase of so many ticks.
pub fn put_run(out: &mut String, ticks: u32) -> Result<(), AllocError>
    ensures { IfOk result (λ _. string_bytes out.new
        ≡ string_bytes out.old ++ text_of (run_lines ticks)) }
{
    write!(out, "run {ticks}\nend\n")
}
