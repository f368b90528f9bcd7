// A tour of the library: written lists of calls, each printed with its answer or its refusal.
#![tactic(auto)]

mod answers;
mod ice;
mod list;
mod passes;
mod plans;

fn main(rt: HostRuntime) -> anyhow::Result<()> {
    tour(&rt)
}

fn tour(rt: &HostRuntime) -> anyhow::Result<()> {
    ice::survey_a_rink(rt)?;
    list::run_on_a_flat_list(rt)?;
    list::run_on_a_tree(rt)?;
    passes::work_the_passes(rt)?;
    plans::plan_on_a_flat_list(rt)?;
    plans::plan_on_a_tree(rt)?;
    Ok(())
}
