// Whether bytes are a release: they read in order, and no two of their groups could be one.
#![tactic(auto)]

ghost use Rattle.reader.specs.Decoding.{BlankGroups};
ghost use Rattle.judging.specs.Judging.{Judged};

use compressed::Groups;

// How many nodes the graph of a release has, told by its groups in the lent arrays; none if the bytes are no release.
pub fn judge(file: &[u8], groups: &mut Groups, joined: &mut [u64]) -> Option<usize>
    requires { BlankGroups file.now groups.old joined.old }
    ensures { Judged file.now groups.new.least groups.new.kinds groups.new.classes joined.new groups.new.sums result }
{
    let n = reader::decode(file, groups, joined)?;
    let few = reader::are_few(file.len(), n);
    if !grouping::are_apart(
        joined,
        &groups.least,
        &groups.kinds,
        &groups.classes,
        n,
        few,
        &groups.sums,
    ) {
        return None;
    }
    Some(n)
}
