//! How many stages and fields a description has.
#![tactic(auto, using(machine_parts::proofs::Steps::one_resource))]

ghost use Rattle.std.specs.Prelude.{◌≡◌, length, map};
ghost use Rattle.lisa_tree.specs.Descriptions.{resource_tree};
ghost use Rattle.lisa_tree.specs.Resources.{stages_in, fields_in};

use lisa_tree::Resource;

/// How many stages the pipeline has; none without a pipeline.
pub(crate) fn count_stages(resources: &[Resource]) -> usize
    ensures { result ≡ length (stages_in (map resource_tree resources.now)) }
{
    for resource in resources {
        if let Resource::Pipeline(_, stages) = resource {
            return stages.len();
        }
    }
    0
}

/// How many fields each boundary of the pipeline has.
pub(crate) fn count_fields(resources: &[Resource]) -> usize
    ensures { result ≡ length (fields_in (map resource_tree resources.now)) }
{
    for resource in resources {
        if let Resource::Fields(_, fields) = resource {
            return fields.len();
        }
    }
    0
}
