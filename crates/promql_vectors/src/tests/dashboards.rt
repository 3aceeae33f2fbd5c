//! Queries as rules and dashboards have them.

/// A query a line: the proof of a long array costs the square of its length.
pub const QUERIES: &str = r#"up == 0
sum(up{job="api"}) by (zone)
avg without (instance) (rate(http_requests_total{code=~"5.."}[5m]))
sum by (service) (rate(grpc_server_handled_total{grpc_code!="OK"}[10m])) / sum by (service) (rate(grpc_server_handled_total[10m])) > 0.02
histogram_quantile(0.99, sum by (le, route) (rate(http_request_duration_seconds_bucket{job="edge",route!~"/health|/metrics"}[5m])))
100 - avg by (host) (irate(cpu_seconds_total{mode="idle"}[2m])) * 100
(1 - memory_available_bytes / memory_total_bytes) * 100 > 90
predict_linear(disk_free_bytes{mountpoint="/data",fstype!~"tmpfs|overlay"}[6h], 4 * 3600) < 0
absent(up{job="billing",env="prod"})
max_over_time(queue_depth{queue="invoices"}[1h]) - min_over_time(queue_depth{queue="invoices"}[1h])
topk(5, sum by (customer) (increase(api_calls_total{plan=~"pro|team"}[1d])))
sum(rate(container_cpu_usage_seconds_total{namespace="shop",container!=""}[5m])) by (pod) / on (pod) sum(kube_pod_container_resource_limits{resource="cpu"}) by (pod)
label_replace(node_uname_info, "host", "$1", "instance", "(.+):\\d+")
time() - process_start_time_seconds{job=~"worker-.*"} < 600
changes(leader_identity{cluster="c1"}[30m]) > 2
sum by (node) (kube_node_status_condition{condition="Ready",status="true"} == 0) unless on (node) kube_node_spec_unschedulable == 1
rate(errors_total[5m]) > 3 * (avg_over_time(rate(errors_total[5m])[1h:1m]) + 0.1)
quantile(0.9, request_latency_seconds{quantile="0.5"}) by (region)
count by (version) (build_info{app="gateway"}) > 1
deriv(temperature_celsius{sensor="intake"}[15m]) * 60 > 0.5
sum(rate(net_receive_bytes_total{device!~"lo|veth.*"}[5m])) by (instance) * 8 / 1e6
min(kube_deployment_status_replicas_available) by (deployment) < on (deployment) kube_deployment_spec_replicas
bottomk(3, avg by (disk) (ssd_life_left_ratio{model=~"x[0-9]{3}"}))
sort_desc(sum by (table) (pg_table_size_bytes{db="orders"}))
clamp_max(sum(rate(retry_total[1m])) / sum(rate(call_total[1m])), 1)
vector(1) unless on () (hour() >= 8 < 18)
holt_winters_like_metric offset 1w
sum(rate(orders_total[5m])) / sum(rate(orders_total[5m] offset 1w)) < 0.5
sum by (team) (slo_errors:ratio_rate1h{sloth_slo="availability"} > (14.4 * 0.001)) and sum by (team) (slo_errors:ratio_rate5m > (14.4 * 0.001))
avg_over_time((sum by (job) (rate(scrape_samples_scraped[5m])))[30m:5m])
foo{bar="baz"} @ 1609746000
foo{bar="baz"} @ end() offset 5m
sum(increase(jobs_failed_total[1h] @ start())) by (job)
ceil(sum(kafka_consumergroup_lag{topic=~"evt\\..+"}) by (group) / 1000) * 1000
round(100 * sum by (az) (instances_running) / ignoring (az) group_left () sum(instances_running), 0.1)
a:b:c{d="e"} * on (x, y) group_left (z) f:g{h!="i"}
kube_pod_info * on (namespace, pod) group_left (node) (rate(restarts_total[15m]) > bool 0)
-rate(balance_change[1h]) ^ 2 % 7
(sum(a) or sum(b) or vector(0)) - (sum(c) and sum(d))
sum without () (x) <= bool 3
count_values("version", build_version{env=~"prod|staging"})
stddev_over_time(latency_ms{path="/v1/items"}[20m]) / avg_over_time(latency_ms{path="/v1/items"}[20m]) > 1.5
histogram_quantile(0.5, sum(rate(rpc_duration_seconds_bucket[5m])) by (le)) > 0.25 and on () count(up{job="rpc"} == 1) > 2
sum by (instance) (rate(disk_io_time_seconds_total{device=~"(sd|nvme|vd).+"}[5m])) > 0.9 and sum by (instance) (rate(disk_io_queue_seconds_total[5m])) > 1
(node_filesystem_avail_bytes{mountpoint="/"} / node_filesystem_size_bytes{mountpoint="/"} * 100 < 10 and on (instance, device, mountpoint) node_filesystem_readonly == 0)
scalar(sum(license_seats_used)) / 500
sum(rate(cache_hits_total{cache="l2"}[5m])) by (shard) / (sum(rate(cache_hits_total{cache="l2"}[5m])) by (shard) + sum(rate(cache_misses_total{cache="l2"}[5m])) by (shard))
last_over_time(backup_last_success_timestamp_seconds{job="pgdump"}[2d]) < time() - 86400
day_of_week() == 0 or day_of_week() == 6
label_join(service_info, "id", "/", "region", "service", "version")
{__name__=~"tmp_.+",job!=""}
{"metric with spaces", "label name"="v"}
sum(rate(tls_handshake_errors_total{reason=~"bad_(certificate|record_mac)|unknown_ca"}[5m])) by (listener) > 0
max by (cluster) (etcd_server_leader_changes_seen_total) - max by (cluster) (etcd_server_leader_changes_seen_total offset 1h) > 3
sum by (code) (rate(http_requests_total{handler="query",code=~"^(4|5)..$"}[1m])) > ignoring (code) group_left () (sum(rate(http_requests_total{handler="query"}[1m])) * 0.5)
resets(boot_counter_total[1d]) > 1 or increase(panic_total[1d]) > 0
min_over_time(sum(mysql_up{role="replica"})[5m:30s]) < 2
ln(sum(population)) - log2(vector(8)) + log10(sum(stock)) * exp(vector(0.5))
sgn(delta(price[1h])) == -1 and abs(delta(price[1h])) > 5
sum(rate(mail_sent_total[5m])) by (domain) > 10 # more than ten a second
1 + 2 * 3 ^ 2 ^ 0.5 - -4 / (5 % 3)
0x1F + 017 + 1e3 + .5 + 5. + Inf
sum by (pod) (container_memory_working_set_bytes{container!="",image!=""}) / sum by (pod) (kube_pod_container_resource_requests{resource="memory",unit="byte"}) > 1.2
avg(rate(job_duration_seconds_sum{job="etl"}[1h]) / rate(job_duration_seconds_count{job="etl"}[1h])) by (step) > 2 * avg(rate(job_duration_seconds_sum{job="etl"}[1d]) / rate(job_duration_seconds_count{job="etl"}[1d])) by (step)
group by (instance) (up{region=~"eu-(west|north)-[12]"}) unless group by (instance) (maintenance_window == 1)
sum(rate(requests_total{status="error",tenant!~"test-.*|load-.*"}[5m])) by (tenant, service) / sum(rate(requests_total{tenant!~"test-.*|load-.*"}[5m])) by (tenant, service) * 100 > 5 and sum(rate(requests_total[5m])) by (tenant, service) > 1
floor(avg_over_time(battery_percent{site="roof"}[10m]))
sum_over_time(rain_mm[24h:1h]) > 40
present_over_time(heartbeat{agent="a-17"}[5m]) unless present_over_time(maintenance{agent="a-17"}[5m])
a + on (l) group_left (x) fill (0) b
a * on (id) fill_left (1) fill_right (0) b"#;
