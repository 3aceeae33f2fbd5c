//! Queries as rule files have them, and their layouts (docs/reference/formatting.md).

use crate::tests::{columns_by, prints};
use promql_formatter::{FormatOptions, format_query};

/// A query on a line, and its layout on the lines after it; then an empty line.
const RULES: &str =
    r#"histogram_quantile(0.99, sum by (le, route) (rate(http_request_duration_seconds_bucket{job="edge",route!~"/health|/metrics"}[5m])))
histogram_quantile(
  0.99, sum by (le, route) (
    rate(http_request_duration_seconds_bucket{job="edge",route!~"/health|/metrics"}[5m])
  )
)

predict_linear(disk_free_bytes{mountpoint="/data",fstype!~"tmpfs|overlay",device!~"loop.*|ram.*"}[6h], 4 * 3600) < 0
predict_linear(
  disk_free_bytes{mountpoint="/data",fstype!~"tmpfs|overlay",device!~"loop.*|ram.*"}[6h],
  4 * 3600
) < 0

sum(rate(container_cpu_usage_seconds_total{namespace="shop",container!=""}[5m])) by (pod) / on (pod) sum(kube_pod_container_resource_limits{resource="cpu"}) by (pod)
sum by (pod) (rate(container_cpu_usage_seconds_total{namespace="shop",container!=""}[5m]))
/ on (pod) sum by (pod) (kube_pod_container_resource_limits{resource="cpu"})

sum by (code) (rate(http_requests_total{handler="query",code=~"^(4|5)..$"}[1m])) > ignoring (code) group_left () (sum(rate(http_requests_total{handler="query"}[1m])) * 0.5)
sum by (code) (rate(http_requests_total{handler="query",code=~"^(4|5)..$"}[1m]))
> ignoring (code) group_left () (sum(rate(http_requests_total{handler="query"}[1m])) * 0.5)

avg(rate(job_duration_seconds_sum{job="etl"}[1h]) / rate(job_duration_seconds_count{job="etl"}[1h])) by (step) > 2 * avg(rate(job_duration_seconds_sum{job="etl"}[1d]) / rate(job_duration_seconds_count{job="etl"}[1d])) by (step)
avg by (step) (
  rate(job_duration_seconds_sum{job="etl"}[1h]) / rate(job_duration_seconds_count{job="etl"}[1h])
)
> 2 * avg by (step) (
  rate(job_duration_seconds_sum{job="etl"}[1d]) / rate(job_duration_seconds_count{job="etl"}[1d])
)

sum(rate(requests_total{status="error",tenant!~"test-.*|load-.*"}[5m])) by (tenant, service) / sum(rate(requests_total{tenant!~"test-.*|load-.*"}[5m])) by (tenant, service) * 100 > 5 and sum(rate(requests_total[5m])) by (tenant, service) > 1
sum by (tenant, service) (rate(requests_total{status="error",tenant!~"test-.*|load-.*"}[5m]))
  / sum by (tenant, service) (rate(requests_total{tenant!~"test-.*|load-.*"}[5m])) * 100 > 5
and sum by (tenant, service) (rate(requests_total[5m])) > 1

(node_filesystem_avail_bytes{mountpoint="/"} / node_filesystem_size_bytes{mountpoint="/"} * 100 < 10 and on (instance, device, mountpoint) node_filesystem_readonly == 0)
(
  node_filesystem_avail_bytes{mountpoint="/"}
    / node_filesystem_size_bytes{mountpoint="/"} * 100 < 10
  and on (instance, device, mountpoint) node_filesystem_readonly == 0
)

sum(rate(tls_handshake_errors_total{reason=~"bad_(certificate|record_mac)|unknown_ca"}[5m])) by (listener) > 0
sum by (listener) (
  rate(tls_handshake_errors_total{reason=~"bad_(certificate|record_mac)|unknown_ca"}[5m])
) > 0

sum(instance_mode:node_cpu_seconds:rate5m{mode!="idle"}) without (mode) / instance:node_cpus:count
sum without (mode) (instance_mode:node_cpu_seconds:rate5m{mode!="idle"}) / instance:node_cpus:count

sum by (cluster, namespace, pod, container) (irate(container_cpu_usage_seconds_total{job="kubelet", metrics_path="/metrics/cadvisor", image!=""}[5m])) * on (cluster, namespace, pod) group_left (node) topk by (cluster, namespace, pod) (1, max by (cluster, namespace, pod, node) (kube_pod_info{node!=""}))
sum by (cluster, namespace, pod, container) (irate(
  container_cpu_usage_seconds_total{job="kubelet",metrics_path="/metrics/cadvisor",image!=""}[5m]
))
* on (cluster, namespace, pod) group_left (node) topk by (cluster, namespace, pod) (
  1, max by (cluster, namespace, pod, node) (kube_pod_info{node!=""})
)

container_memory_rss{job="kubelet", metrics_path="/metrics/cadvisor", image!=""} * on (namespace, pod) group_left (node) max by (namespace, pod, node) (kube_pod_info{node!="",host_network="false"})
container_memory_rss{job="kubelet",metrics_path="/metrics/cadvisor",image!=""}
* on (namespace, pod)
  group_left (node) max by (namespace, pod, node) (kube_pod_info{node!="",host_network="false"})

max by (namespace, workload, pod) (label_replace(label_replace(kube_pod_owner{job="kube-state-metrics", owner_kind="ReplicaSet"}, "replicaset", "$1", "owner_name", "(.*)") * on (replicaset, namespace) group_left (owner_name) topk by (replicaset, namespace) (1, max by (replicaset, namespace, owner_name) (kube_replicaset_owner{job="kube-state-metrics"})), "workload", "$1", "owner_name", "(.*)"))
max by (namespace, workload, pod) (label_replace(
  label_replace(
    kube_pod_owner{job="kube-state-metrics",owner_kind="ReplicaSet"},
    "replicaset", "$1", "owner_name", "(.*)"
  )
  * on (replicaset, namespace) group_left (owner_name) topk by (replicaset, namespace) (
    1, max by (replicaset, namespace, owner_name) (kube_replicaset_owner{job="kube-state-metrics"})
  ),
  "workload", "$1", "owner_name", "(.*)"
))

max_over_time(kube_pod_container_status_waiting_reason{reason="CrashLoopBackOff", job="kube-state-metrics"}[5m]) >= 1
max_over_time(
  kube_pod_container_status_waiting_reason{reason="CrashLoopBackOff",job="kube-state-metrics"}[5m]
) >= 1

sum by (namespace, pod) (max by (namespace, pod) (kube_pod_status_phase{job="kube-state-metrics", phase=~"Pending|Unknown"}) * on (namespace, pod) group_left (owner_kind) topk by (namespace, pod) (1, max by (namespace, pod, owner_kind) (kube_pod_owner{owner_kind!="Job"}))) > 0
sum by (namespace, pod) (
  max by (namespace, pod) (kube_pod_status_phase{job="kube-state-metrics",phase=~"Pending|Unknown"})
  * on (namespace, pod) group_left (owner_kind) topk by (namespace, pod) (
    1, max by (namespace, pod, owner_kind) (kube_pod_owner{owner_kind!="Job"})
  )
) > 0

(kube_statefulset_status_replicas_ready{job="kube-state-metrics"} != kube_statefulset_replicas{job="kube-state-metrics"}) and (changes(kube_statefulset_status_replicas_updated{job="kube-state-metrics"}[10m]) == 0)
(
  kube_statefulset_status_replicas_ready{job="kube-state-metrics"}
  != kube_statefulset_replicas{job="kube-state-metrics"}
)
and (changes(kube_statefulset_status_replicas_updated{job="kube-state-metrics"}[10m]) == 0)

kubelet_volume_stats_available_bytes{job="kubelet"} / kubelet_volume_stats_capacity_bytes{job="kubelet"} < 0.03 and kubelet_volume_stats_used_bytes{job="kubelet"} > 0 unless on (namespace, persistentvolumeclaim) kube_persistentvolumeclaim_access_mode{access_mode="ReadOnlyMany"} == 1
kubelet_volume_stats_available_bytes{job="kubelet"}
  / kubelet_volume_stats_capacity_bytes{job="kubelet"} < 0.03
and kubelet_volume_stats_used_bytes{job="kubelet"} > 0
unless on (namespace, persistentvolumeclaim)
  kube_persistentvolumeclaim_access_mode{access_mode="ReadOnlyMany"} == 1

sum by (cluster, instance, job) (rate(rest_client_requests_total{job="apiserver",code=~"5.."}[5m])) / sum by (cluster, instance, job) (rate(rest_client_requests_total{job="apiserver"}[5m])) > 0.01
sum by (cluster, instance, job) (rate(rest_client_requests_total{job="apiserver",code=~"5.."}[5m]))
/ sum by (cluster, instance, job) (rate(rest_client_requests_total{job="apiserver"}[5m])) > 0.01

time() - max by (namespace, job_name) (kube_job_status_start_time{job="kube-state-metrics"} and kube_job_status_active{job="kube-state-metrics"} > 0) > 43200
time() - max by (namespace, job_name) (
  kube_job_status_start_time{job="kube-state-metrics"}
  and kube_job_status_active{job="kube-state-metrics"} > 0
) > 43200

count(count by (git_version) (label_replace(kubernetes_build_info{job!~"kube-dns|coredns"}, "git_version", "$1", "git_version", "(v[0-9]*.[0-9]*).*"))) > 1
count(count by (git_version) (label_replace(
  kubernetes_build_info{job!~"kube-dns|coredns"},
  "git_version", "$1", "git_version", "(v[0-9]*.[0-9]*).*"
))) > 1

(sum by (cluster) (rate(request_duration_seconds_bucket{verb=~"LIST|GET",subresource!~"proxy|attach|log|exec|portforward",scope=~"resource|",le="1"}[1d])) or vector(0)) + sum by (cluster) (rate(request_duration_seconds_bucket{verb=~"LIST|GET",scope="namespace",le="5"}[1d]))
(
  sum by (cluster) (rate(request_duration_seconds_bucket{
    verb=~"LIST|GET",subresource!~"proxy|attach|log|exec|portforward",scope=~"resource|",le="1",
  }[1d])) or vector(0)
)
+ sum by (cluster) (
  rate(request_duration_seconds_bucket{verb=~"LIST|GET",scope="namespace",le="5"}[1d])
)

1 - avg by (cluster, instance) (rate(node_cpu_seconds_total{job="node-exporter",mode=~"idle|iowait|steal"}[5m]))
1 - avg by (cluster, instance) (
  rate(node_cpu_seconds_total{job="node-exporter",mode=~"idle|iowait|steal"}[5m])
)

kube_node_spec_taint{key="node.kubernetes.io/unreachable",effect="NoSchedule"} unless ignoring (key, value) kube_node_spec_taint{key=~"ToBeDeleted|impending-node-termination|spot-itn",effect!=""} == 1
kube_node_spec_taint{key="node.kubernetes.io/unreachable",effect="NoSchedule"}
unless ignoring (key, value)
  kube_node_spec_taint{key=~"ToBeDeleted|impending-node-termination|spot-itn",effect!=""} == 1

sum without (id, name, image, endpoint, job, node) (increase(container_cpu_cfs_throttled_periods_total{container!="",job="kubelet"}[5m])) / sum without (id, name, image, endpoint, job, node) (increase(container_cpu_cfs_periods_total{job="kubelet"}[5m])) > (25 / 100)
sum without (id, name, image, endpoint, job, node) (
  increase(container_cpu_cfs_throttled_periods_total{container!="",job="kubelet"}[5m])
)
  / sum without (id, name, image, endpoint, job, node) (
    increase(container_cpu_cfs_periods_total{job="kubelet"}[5m])
  )
> (25 / 100)

label_join(kube_pod_info{job="kube-state-metrics",created_by_kind="ReplicaSet"}, "place", "/", "cluster", "namespace", "node")
label_join(
  kube_pod_info{job="kube-state-metrics",created_by_kind="ReplicaSet"},
  "place", "/", "cluster", "namespace", "node"
)"#;

#[test]
fn rules_have_their_layouts(rt: HostRuntime) {
    let alloc = rt.alloc();
    let options = FormatOptions::new();
    for rule in RULES.split("\n\n") {
        let (query, layout) = columns_by(rule, "\n");
        prints(&rt, format_query(alloc, query, &options), layout);
        prints(&rt, format_query(alloc, layout, &options), layout);
    }
}
