//! The laws of windows of each key.

ghost use Rattle.gl_partition.specs.Costs.{PartitioningsAreCounted};
ghost use Rattle.gl_partition.specs.Laws.{PartitioningsServe, PartitionsPartition};
ghost use Rattle.gl_partition.specs.Worked.{WorkedPartitions};

use gl_wire::copy_laws::fits_is_timed;

/// A front, copies that serve a body, and a back serve what the body makes of each window of each key, joined.
pub fn partitionings_serve()
    ensures { PartitioningsServe }
{
    fits_is_timed();
}

/// Windows of each key in a plan have numbers that a circuit can have.
pub fn partitions_partition()
    ensures { PartitionsPartition }
{}

/// Worked streams: the definition of a front gives the visits that were worked out by hand.
pub fn worked_partitions()
    ensures { WorkedPartitions }
{}

/// What windows of each key cost is within what a plan counts for them.
pub fn costs_are_counted()
    ensures { PartitioningsAreCounted }
{}
